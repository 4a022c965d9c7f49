// Worked examples: what the formulas give for a handful of numbers that anybody can follow with a pencil.
//
// Proved: all of them at once, over the definitions that the contracts of the stages name.
ghost use Rattle.std.specs.Prelude.{◌≡◌};
ghost use Rattle.stages.specs.Worked.{Worked, real};

use crate::scaling::Scaling;
use samples::kinds::{ConverterSample, WorkingSample};
use samples::sample::Sample;
use sources::each::Mapping;

/// The worked examples stand. Answers the first of them as the stage computes it: 100, scaled by 4096.
pub fn worked_examples() -> WorkingSample
    ensures first { result ≡ real 1600 }
    ensures all { Worked }
{
    let scaling = Scaling { factor: 4096 };
    scaling.apply(ConverterSample::new(100, 0))
}
