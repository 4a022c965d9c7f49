// The levels of the samples that come out of the converter.
ghost use Rattle.std.specs.Prelude.{◌≡◌};
ghost use Rattle.program.specs.Levels.{at_an_end, is_clipped, level};

use samples::kinds::ConverterSample;
use samples::sample::Sample;

// The ends of a converter's range.
const LOWEST: i16 = -2048;

const HIGHEST: i16 = 2047;

fn is_at_an_end(part: i16) -> bool
    ensures { result ≡ at_an_end part }
{
    part == LOWEST || part == HIGHEST
}

fn clips(sample: ConverterSample) -> bool
    ensures { result ≡ is_clipped sample }
{
    is_at_an_end(sample.re) || is_at_an_end(sample.im)
}

fn level_of(sample: ConverterSample) -> u16
    ensures { result ≡ level sample }
{
    sample.re.unsigned_abs().max(sample.im.unsigned_abs())
}

/// What was seen of converter samples.
#[derive(Clone, Copy, PartialEq, Eq, Debug, Default)]
pub struct Levels {
    /// The greatest size of a part, 0 to 2048.
    pub highest: u16,
    /// How many samples have a part at an end of the range, -2048 or 2047.
    pub clipped: u64,
}

impl Levels {
    ghost use Rattle.std.specs.Prelude.{◌≡◌, ◌+◌, ◌<◌, ◌^◌, [], length, count_by};
    ghost use Rattle.program.specs.Levels.{highest_from, is_clipped, levels_of};

    /// The levels of no sample.
    pub fn none() -> Levels
        ensures { result ≡ levels_of [] }
    {
        Levels {
            highest: 0,
            clipped: 0,
        }
    }

    /// Notes the samples.
    pub(crate) fn note(&mut self, samples: &[ConverterSample])
        requires { self.old.clipped + length samples.now < 2 ^ 64 }
        ensures highest { self.new.highest ≡ highest_from self.old.highest samples.now }
        ensures clipped { self.new.clipped ≡ self.old.clipped + count_by is_clipped samples.now }
    {
        for sample in samples {
            self.highest = self.highest.max(level_of(*sample));
            if clips(*sample) {
                self.clipped += 1;
            }
        }
    }
}
