// The frequency offset between transmitter and receiver: sample k is turned back by k times the offset.
ghost use Rattle.std.specs.Prelude.{◌≡◌, ◌^◌, ◌<◌, pos, negsuc, ◌-ℤ◌, ◌≤ℤ◌};
ghost use Rattle.samples.specs.Phases.{modulo};
ghost use Rattle.stages.specs.FrequencyOffset.{frequency_offset, length_offset, turned_to};

use samples::complex::product;
use samples::kinds::WorkingSample;
use samples::phasor::{index_48, phasor};
use samples::sample::Sample;
use sources::scan::Memory;

/// How far the receiver's carrier is above the transmitter's, -2^47 to 2^47 - 1, in units of 2^-48 of a turn a sample.
#[derive(Clone, Copy, PartialEq, Eq, Debug)]
pub struct FrequencyOffset {
    /// In units of 2^-48 of a turn a sample.
    pub f: i64,
    ghost low: { negsuc 140737488355327 ≤ℤ f },
    ghost high: { f ≤ℤ pos 140737488355327 },
}

/// The frequency offset as a stage: a phase that falls by the offset from sample to sample.
#[derive(Clone, Copy, PartialEq, Eq, Debug)]
pub struct Rotator {
    offset: FrequencyOffset,
    // The phase of the next sample, 2^48 a turn.
    phase: u64,
    ghost phase_within: { phase < 2 ^ 48 },
}

// The phase of the next sample, (phase - f) mod 2^48.
fn next_phase(phase: u64, f: i64) -> u64
    ensures { result ≡ modulo (pos phase -ℤ f) (2 ^ 48) }
{
    phase.wrapping_sub_signed(f) % (1 << 48)
}

// A sample turned by the phasor of a phase, each part rounded down after division by 2^14, then clipped.
fn turn_to(phase: u64, x: WorkingSample) -> WorkingSample
    ensures { result ≡ turned_to phase x }
{
    // 16384 for 1.
    let (cosine, sine) = phasor(index_48(phase));
    let (re, im) = product((x.re, x.im), (cosine, sine));
    WorkingSample::divided(re, im, 14)
}

impl Rotator {
    /// Turns sample k back by k times the offset, from phase 0.
    pub fn new(offset: FrequencyOffset) -> Self
        ensures offset { result.offset ≡ offset }
        ensures start { result.phase ≡ 0 }
    {
        Rotator { offset, phase: 0 }
    }
}

impl Memory for Rotator {
    type From = WorkingSample;

    type To = WorkingSample;

    ghost makes = { λ s. frequency_offset s.phase s.offset.f };

    ghost fresh = { λ s. frequency_offset 0 s.offset.f };

    ghost same_length = { λ s. length_offset s.phase s.offset.f };

    #[inline(always)]
    fn step(&mut self, x: WorkingSample) -> WorkingSample {
        let turned = turn_to(self.phase, x);
        self.phase = next_phase(self.phase, self.offset.f);
        turned
    }

    fn reset(&mut self) {
        self.phase = 0;
    }
}
