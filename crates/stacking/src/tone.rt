// A source that a customer wrote: a tone, which ends with a fault of its own.
ghost use Rattle.std.specs.Prelude.{◌≡◌, ◌≤◌};
ghost use Rattle.sources.specs.Streams.{AtStart};
ghost use Rattle.stacking.specs.Tones.{tone, tone_from, tone_sample};

use samples::kinds::WorkingSample;
use samples::phasor::phasor;
use samples::sample::Sample;
use sources::fault::{Fault, FaultKind};
use sources::source::Source;

/// The number of the tone's fault, which it chose itself.
pub(crate) const TONE_IS_OVER: u8 = 100;

/// The number of the tone as an input.
pub(crate) const TONE_INPUT: u8 = 7;

/// A tone of working samples, 16384 for 1. After its last sample it reports its fault.
#[derive(Clone, Copy)]
pub(crate) struct Tone {
    // How far a sample turns it, in 1024ths of a turn.
    turn: u16,
    length: u32,
    // How many samples were handed out.
    place: u32,
    ghost within: { place ≤ length },
}

impl Tone {
    /// So many samples, 0 to 2^32 - 1, each `turn` 1024ths of a turn on.
    pub(crate) fn new(turn: u16, length: u32) -> Self
        ensures { AtStart (tone result.turn result.length)
            (tone_from result.turn result.length result.place) (tone turn length) }
    {
        Tone {
            turn,
            length,
            place: 0,
        }
    }

    // The sample at the tone's place.
    fn sample(&self) -> WorkingSample
        ensures { result ≡ tone_sample self.now.turn self.now.place }
    {
        let index = u64::from(self.place) * u64::from(self.turn) % 1024;
        let (re, im) = phasor(index as u16);
        WorkingSample::new(i64::from(re), i64::from(im))
    }
}

impl Source for Tone {
    type Item = WorkingSample;

    ghost whole = { λ s. tone s.turn s.length };

    ghost left = { λ s. tone_from s.turn s.length s.place };

    #[tactic(auto, using(crate::proofs::Tones::next_sample))]
    fn next(&mut self) -> Result<Option<WorkingSample>, Fault> {
        if self.place == self.length {
            return Err(Fault {
                kind: FaultKind::Other(TONE_IS_OVER),
                input: TONE_INPUT,
                item: u64::from(self.length),
            });
        }
        let x = self.sample();
        self.place += 1;
        Ok(Some(x))
    }

    fn rewind(&mut self) {
        self.place = 0;
    }
}
