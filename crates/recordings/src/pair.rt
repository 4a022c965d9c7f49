// Both recordings of a link, the signal and its gain indices.
ghost use Rattle.std.specs.Prelude.{◌≡◌};
ghost use Rattle.recordings.specs.Pair.{input_number, link_opening, BothOpenAs};
ghost use Rattle.std.proofs.Common.{rules};

use crate::layout::{Gains, Signal};
use crate::recording::Recording;
use crate::refusal::OpeningRefusal;
use samples::sample::Exact;
use sources::source::Source;

/// Which of the two recordings.
#[derive(Clone, Copy, PartialEq, Eq, Debug)]
pub enum Input {
    /// The signal recording, input 0.
    Signal,
    /// The gain recording, input 1.
    Gain,
}

impl Exact for Input {
    ghost exact = { Prim.search rules };
}

impl Input {
    /// The input number, by which its faults name it: 0 for the signal, 1 for the gain.
    pub fn number(self) -> u8
        ensures { result ≡ input_number self }
    {
        match self {
            Input::Signal => 0,
            Input::Gain => 1,
        }
    }
}

/// Both recordings, opened.
#[derive(Drop)]
pub struct LinkRecordings<'a> {
    /// Faults name it by input 0.
    pub signal: Recording<'a, Signal>,
    /// Faults name it by input 1. Its rate may be another one.
    pub gain: Recording<'a, Gains>,
}

impl<'a> LinkRecordings<'a> {
    /// Opens both, the signal first. The first that is refused is answered with its refusal.
    pub fn open(
        signal: &'a [u8],
        gain: &'a [u8],
    ) -> Result<LinkRecordings<'a>, (Input, OpeningRefusal)>
        ensures { BothOpenAs result (link_opening signal.now gain.now) }
    {
        let signal = Recording::open(signal, Input::Signal.number()).map_err(|e| (
            Input::Signal,
            e,
        ))?;
        let gain = Recording::open(gain, Input::Gain.number()).map_err(|e| (Input::Gain, e))?;
        Ok(LinkRecordings { signal, gain })
    }
}
