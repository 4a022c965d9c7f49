// Rounding down, clipping at any width, products, and interpolation on a straight line.
ghost use Rattle.std.specs.Prelude.{◌≡◌, ◌-◌, ◌*◌, ◌^◌, ◌≤◌, pos, ◌≤ℤ◌, ◌*ℤ◌, unsigned_abs};
ghost use Rattle.std.specs.Int.{int_max, int_min};
ghost use Rattle.samples.specs.Arithmetic.{floor_by, clip};
ghost use Rattle.samples.specs.Bounds.{Between};
ghost use Rattle.samples.specs.Interpolation.{linear};
ghost use Rattle.samples.specs.Laws.{Clips, Floors};

/// floor (x / 2^k), for every k.
pub fn floor_shift(x: i64, k: u32) -> i64
    ensures value { result ≡ floor_by x (2 ^ k) }
    ensures laws { Floors }
{
    x >> k.min(63)
}

// How many numbers of that many bits are negative: 2^(bits - 1).
fn half_range(bits: u32) -> i64
    requires low { 1 ≤ bits }
    requires high { bits ≤ 32 }
    ensures value { result ≡ pos (2 ^ (bits - 1)) }
    ensures small { result ≤ℤ pos (2 ^ 31) }
{
    1i64 << (bits - 1)
}

// The nearest number of that many bits where x lies outside. Cold: most numbers lie inside, and a branch that is foreseen
// costs less than two comparisons that every sample waits for.
#[cold]
#[inline(never)]
fn clipped(x: i64, bits: u32) -> i64
    requires low { 1 ≤ bits }
    requires high { bits ≤ 32 }
    ensures { result ≡ clip bits x }
{
    let half = half_range(bits);
    x.clamp(-half, half - 1)
}

// The number nearest to x that has `bits` bits, signed.
pub(crate) fn nearest(x: i64, bits: u32) -> i64
    requires low { 1 ≤ bits }
    requires high { bits ≤ 32 }
    ensures value { result ≡ clip bits x }
    ensures laws { Clips bits }
{
    let half = half_range(bits);
    if -half <= x && x < half {
        x
    } else {
        clipped(x, bits)
    }
}

/// factor × x, whole; a factor of few bits leaves room for sums and shifts.
pub fn times(factor: i32, x: i32) -> i64
    ensures value { result ≡ factor *ℤ x }
    ensures within { Between (unsigned_abs factor * 2 ^ 31) result }
{
    i64::from(factor) * i64::from(x)
}

/// The number `part` of 65536 parts of the way from a to b, rounded down: it lies between a and b.
pub fn linear(a: i16, b: i16, part: u16) -> i16
    ensures value { result ≡ linear a b part 16 }
    ensures low { int_min a b ≤ℤ result }
    ensures high { result ≤ℤ int_max a b }
{
    let way = floor_shift((i64::from(b) - i64::from(a)) * i64::from(part), 16);
    (i64::from(a) + way) as i16
}
