// Scaling: from converter samples to working samples.
ghost use Rattle.std.specs.Prelude.{◌≡◌, ◌≤◌};
ghost use Rattle.stages.specs.Scaling.{scaled, scaled_part};

use samples::arithmetic::{floor_shift, times};
use samples::kinds::{ConverterSample, WorkingSample};
use samples::sample::Sample;
use sources::each::Mapping;

/// Each part times factor / 256, rounded down. The factor is 1 to 32767, 256 for 1.
#[derive(Clone, Copy, PartialEq, Eq, Debug)]
pub struct Scaling {
    /// 256 for 1.
    pub factor: u16,
    ghost low: { 1 ≤ factor },
    ghost high: { factor ≤ 32767 },
}

fn scaled_part(factor: u16, x: i32) -> i64
    ensures { result ≡ scaled_part factor x }
{
    floor_shift(times(i32::from(factor), x), 8)
}

impl Mapping for Scaling {
    type From = ConverterSample;

    type To = WorkingSample;

    ghost formula = { λ s x. scaled s.factor x };

    #[inline(always)]
    fn apply(&self, x: ConverterSample) -> WorkingSample {
        let re = scaled_part(self.factor, x.re());
        let im = scaled_part(self.factor, x.im());
        WorkingSample::new(re, im)
    }
}
