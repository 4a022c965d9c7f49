// The three kinds of sample, and their makers.
ghost use Rattle.std.specs.Prelude.{◌≡◌};
ghost use Rattle.samples.specs.Arithmetic.{Within};
ghost use Rattle.std.proofs.Common.{rules, arith};

use crate::arithmetic::nearest;
use crate::sample::Sample;

/// What a converter takes and gives: 12 bits a part, -2048 to 2047.
#[derive(Clone, Copy, PartialEq, Eq, Debug)]
pub struct ConverterSample {
    /// The real part.
    pub re: i16,
    /// The imaginary part.
    pub im: i16,
    ghost re_within: { Within 12 re },
    ghost im_within: { Within 12 im },
}

/// What the stages of transmitter and channel work on: 16 bits a part, -32768 to 32767.
#[derive(Clone, Copy, PartialEq, Eq, Debug)]
pub struct WorkingSample {
    /// The real part.
    pub re: i16,
    /// The imaginary part.
    pub im: i16,
}

/// What is on the air and in the receiver: 32 bits a part, -2^31 to 2^31 - 1.
#[derive(Clone, Copy, Eq, PartialEq, Debug)]
pub struct AirSample {
    /// The real part.
    pub re: i32,
    /// The imaginary part.
    pub im: i32,
}

impl WorkingSample {
    /// The sample 0, as what stands before the first one.
    pub const SILENCE: WorkingSample = WorkingSample { re: 0, im: 0 };
}

// One impl a kind: the types of their fields differ.
impl Sample for ConverterSample {
    ghost use Rattle.samples.specs.Equal.{made_of_its_parts};
    ghost use Rattle.samples.specs.Kinds.{converter};
    ghost use Rattle.samples.specs.Widths.{clips};

    ghost bits = { 12 };

    ghost real = { λ x. x.re };

    ghost imaginary = { λ x. x.im };

    ghost sample = { converter };

    ghost keeps = { clips 12 };

    ghost word = { Prim.search rules };

    ghost real_clipped = { Prim.grind (arith, Self.row.coded.inj) };

    ghost imaginary_clipped = { Prim.grind (arith, Self.row.coded.inj) };

    ghost made_of_its_parts = { made_of_its_parts };

    ghost equal_in_both = { Prim.search rules };

    fn new(re: i64, im: i64) -> Self {
        ConverterSample {
            re: nearest(re, 12) as i16,
            im: nearest(im, 12) as i16,
        }
    }

    fn re(self) -> i32 {
        i32::from(self.re)
    }

    fn im(self) -> i32 {
        i32::from(self.im)
    }
}

impl Sample for WorkingSample {
    ghost use Rattle.samples.specs.Kinds.{working};
    ghost use Rattle.samples.specs.Widths.{clips};

    ghost bits = { 16 };

    ghost real = { λ x. x.re };

    ghost imaginary = { λ x. x.im };

    ghost sample = { working };

    ghost keeps = { clips 16 };

    ghost word = { Prim.search rules };

    ghost real_clipped = { Prim.search rules };

    ghost imaginary_clipped = { Prim.search rules };

    ghost made_of_its_parts = { Prim.search rules };

    ghost equal_in_both = { Prim.search rules };

    fn new(re: i64, im: i64) -> Self {
        WorkingSample {
            re: nearest(re, 16) as i16,
            im: nearest(im, 16) as i16,
        }
    }

    fn re(self) -> i32 {
        i32::from(self.re)
    }

    fn im(self) -> i32 {
        i32::from(self.im)
    }
}

impl Sample for AirSample {
    ghost use Rattle.samples.specs.Kinds.{air};
    ghost use Rattle.samples.specs.Widths.{clips};

    ghost bits = { 32 };

    ghost real = { λ x. x.re };

    ghost imaginary = { λ x. x.im };

    ghost sample = { air };

    ghost keeps = { clips 32 };

    ghost word = { Prim.search rules };

    ghost real_clipped = { Prim.search rules };

    ghost imaginary_clipped = { Prim.search rules };

    ghost made_of_its_parts = { Prim.search rules };

    ghost equal_in_both = { Prim.search rules };

    fn new(re: i64, im: i64) -> Self {
        AirSample {
            re: nearest(re, 32) as i32,
            im: nearest(im, 32) as i32,
        }
    }

    fn re(self) -> i32 {
        self.re
    }

    fn im(self) -> i32 {
        self.im
    }
}
