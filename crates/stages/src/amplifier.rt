// The power amplifier: what it makes of a sample depends on the sample's magnitude alone.
ghost use Rattle.std.specs.Prelude.{◌≡◌, ℕ, ◌^◌, ◌<◌, ◌≤◌, if◌then◌else◌, length};
ghost use Rattle.samples.specs.Roots.{Root, root};

use crate::root::magnitude_of;
use samples::arithmetic::linear;
use samples::complex::product;
use samples::kinds::WorkingSample;
use samples::phasor::{index_16, phasor};
use samples::sample::Sample;
use sources::each::Mapping;

/// One of the 513 entries of an amplifier's table: amplitude, 0 to 32767, and phase, 65536 a turn.
#[derive(Clone, Copy, PartialEq, Eq, Debug)]
pub struct Entry {
    /// 0 to 32767, 32768 for 1.
    pub amplitude: u16,
    /// 65536 for a turn.
    pub phase: i16,
    ghost amplitude_within: { amplitude ≤ 32767 },
}

/// The entries for the magnitudes 0, 64, 128 .. 32768.
#[derive(Clone, Copy)]
pub struct AmplifierTable {
    /// Entry q is that of the magnitude 64 q.
    pub entries: [Entry; 513],
    ghost all: { length entries ≡ 513 },
}

impl AmplifierTable {
    ghost use Rattle.stages.specs.Amplifier.{amplified, amplitude_of, at_magnitude, phase_of};

    // Amplitude and phase at the magnitude m.
    fn at(&self, m: u32) -> (i16, i16)
        requires { m ≤ 32768 }
        ensures amplitude { result.0 ≡ at_magnitude (amplitude_of self.now.entries) m }
        ensures phase { result.1 ≡ at_magnitude (phase_of self.now.entries) m }
    {
        let q = (m / 64) as usize;
        // A 64th of the way is 1024 of its 65536 parts.
        let part = (m % 64 * 1024) as u16;
        let here = self.entries[q];
        let next = self.entries[(q + 1).min(512)];
        (
            linear(here.amplitude as i16, next.amplitude as i16, part),
            linear(here.phase, next.phase, part),
        )
    }

    // What the amplifier makes of a sample: turned by the phase and scaled by the amplitude, 32768 for 1.
    fn amplify(&self, x: WorkingSample) -> WorkingSample
        ensures { result ≡ amplified self.now.entries x }
    {
        let (amplitude, phase) = self.at(magnitude_of(x));
        // 16384 for 1.
        let (cosine, sine) = phasor(index_16(i64::from(phase)));
        let (re, im) = product((x.re, x.im), (cosine, sine));
        let gain = i64::from(amplitude);
        WorkingSample::divided(gain * re, gain * im, 29)
    }
}

/// Its table, and whether it is bypassed: not an `Option`, as a bypassed amplifier keeps its table.
#[derive(Clone, Copy)]
pub struct Amplifier {
    table: AmplifierTable,
    bypassed: bool,
}

impl Amplifier {
    /// An amplifier with this table; bypassed, it passes every sample on. The roots that its magnitudes are defined by are the
    /// greatest whole numbers whose squares fit.
    pub fn new(table: AmplifierTable, bypassed: bool) -> Self
        ensures table { result.table ≡ table }
        ensures bypassed { result.bypassed ≡ bypassed }
        ensures exact { (n : ℕ) → n < 2 ^ 32 → Root n (root n) }
    {
        Amplifier { table, bypassed }
    }
}

impl Mapping for Amplifier {
    ghost use Rattle.stages.specs.Amplifier.{amplified};

    type From = WorkingSample;

    type To = WorkingSample;

    ghost formula = { λ s x. (if s.bypassed then x else amplified s.table.entries x) };

    #[inline(always)]
    fn apply(&self, x: WorkingSample) -> WorkingSample {
        if self.bypassed {
            x
        } else {
            self.table.amplify(x)
        }
    }
}
