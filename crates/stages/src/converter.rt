// The receiver's converter: from air samples to converter samples.
ghost use Rattle.std.specs.Prelude.{◌≡◌};
ghost use Rattle.stages.specs.Converter.{quantized};

use samples::kinds::{AirSample, ConverterSample};
use samples::sample::Sample;
use sources::each::Mapping;

/// Each part / 16, rounded down.
#[derive(Clone, Copy)]
pub struct Quantizer;

impl Mapping for Quantizer {
    type From = AirSample;

    type To = ConverterSample;

    ghost formula = { λ _ x. quantized x };

    #[inline(always)]
    fn apply(&self, x: AirSample) -> ConverterSample {
        ConverterSample::divided(i64::from(x.re), i64::from(x.im), 4)
    }
}
