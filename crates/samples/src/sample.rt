// What every kind of sample has in common, and what it means that items are compared whole.
ghost use Rattle.std.specs.Prelude.{◌≡◌, ℕ, ◌^◌, ◌≤◌, ℤ, true, ◌↔◌};
ghost use Rattle.samples.specs.Arithmetic.{clip, floor_by, Within};
ghost use Rattle.samples.specs.Laws.{Clips};

use crate::arithmetic::floor_shift;

/// A sample has two parts of `bits` bits each.
pub trait Sample: Copy + PartialEq {
    /// How many bits a part has.
    ghost bits: { ℕ };

    /// The real part, as a number.
    ghost real: { Self → ℤ };

    /// The imaginary part, as a number.
    ghost imaginary: { Self → ℤ };

    /// The sample of two numbers, each moved to the nearest of its range.
    ghost sample: { ℤ → ℤ → Self };

    /// The sample nearest to two numbers: each is moved to the nearest one that has the sample's bits.
    fn new(re: i64, im: i64) -> Self
        ensures { result ≡ sample re im };

    /// The nearest sample after division by 2^places, each number rounded down first.
    fn divided(re: i64, im: i64, places: u32) -> Self
        ensures { result ≡ sample (floor_by re (2 ^ places)) (floor_by im (2 ^ places)) }
    {
        Self::new(floor_shift(re, places), floor_shift(im, places))
    }

    /// The real part.
    fn re(self) -> i32
        ensures value { result ≡ real self }
        ensures within { Within bits result };

    /// The imaginary part.
    fn im(self) -> i32
        ensures value { result ≡ imaginary self }
        ensures within { Within bits result };

    /// Moving to the nearest never turns two numbers round, changes no number in range, and always ends in range.
    ghost keeps: { Clips bits };

    /// So that an `i32` holds a part, and 64 bits a part times any setting.
    ghost word: { bits ≤ 32 };

    /// The real part of a sample of two numbers is the first, clipped.
    ghost real_clipped: { (a b : ℤ) → real (sample a b) ≡ clip bits a };

    /// The imaginary part of a sample of two numbers is the second, clipped.
    ghost imaginary_clipped: { (a b : ℤ) → imaginary (sample a b) ≡ clip bits b };

    /// A sample whose parts are in range is the sample of its parts.
    ghost made_of_its_parts: { (x : Self) → Within bits (real x) → Within bits (imaginary x)
        → sample (real x) (imaginary x) ≡ x };

    /// `==` is true exactly if both parts are equal.
    ghost equal_in_both: { (x y : Self) → (Self.eq x y ≡ true)
        ↔ ((real x ≡ real y) × (imaginary x ≡ imaginary y)) };
}

/// `==` is true of two values exactly if they are the same value: no part is left out.
pub trait Exact: PartialEq {
    /// `==` is true exactly of one value.
    ghost exact: { (x y : Self) → (Self.eq x y ≡ true) ↔ (x ≡ y) };
}
