// Gains, to air samples: a fixed one, as the channel's, and the receiver's, which is chosen anew for every sample.
ghost use Rattle.std.specs.Prelude.{◌≡◌, ◌^◌, ◌≤◌, length, pos, negsuc, ◌*ℤ◌, ◌≤ℤ◌};
ghost use Rattle.samples.specs.Bounds.{Between};

use samples::arithmetic::{floor_shift, times};
use samples::gain_index::GainIndex;
use samples::kinds::AirSample;
use samples::sample::Sample;
use sources::each::Mapping;
use std::marker::PhantomData;

/// A gain of factor × 2^(shift - 8), with shift -32 to 18 and factor 128 to 255.
#[derive(Clone, Copy, PartialEq, Eq, Debug)]
pub struct Gain {
    /// -32 to 18.
    pub shift: i8,
    /// 128 to 255.
    pub factor: u8,
    ghost shift_low: { negsuc 31 ≤ℤ shift },
    ghost shift_high: { shift ≤ℤ pos 18 },
    ghost factor_low: { 128 ≤ factor },
    ghost factor_high: { factor ≤ 255 },
}

// product × 2^by
fn raised(product: i64, by: u32) -> i64
    requires product { Between (2 ^ 39) product }
    requires by { by ≤ 10 }
    ensures { result ≡ product *ℤ pos (2 ^ by) }
{
    product * (1i64 << by)
}

impl Gain {
    ghost use Rattle.stages.specs.Gain.{gained_part, gained};

    // x × factor × 2^(shift - 8), rounded down.
    fn part(self, x: i32) -> i64
        ensures { result ≡ gained_part self x }
    {
        let product = times(i32::from(self.factor), x);
        let places = u32::from(self.shift.abs_diff(8));
        if self.shift >= 8 {
            raised(product, places)
        } else {
            floor_shift(product, places)
        }
    }

    // A sample of any kind with this gain.
    fn gained<K: Sample>(self, x: K) -> AirSample
        ensures { result ≡ gained self (K.Sample.real x) (K.Sample.imaginary x) }
    {
        let re = self.part(x.re());
        let im = self.part(x.im());
        AirSample::new(re, im)
    }
}

/// The same gain for every sample of kind K: of a working sample, as the channel's path loss, or of an air sample, at the
/// receiver. The kind stands in the type: a mapping has one kind of item.
#[derive(Clone, Copy)]
pub struct FixedGain<K> {
    gain: Gain,
    kind: PhantomData<K>,
}

impl<K: Sample> FixedGain<K> {
    /// This gain for every sample.
    pub fn new(gain: Gain) -> Self
        ensures { result.gain ≡ gain }
    {
        FixedGain {
            gain,
            kind: PhantomData,
        }
    }
}

/// The receiver's 128 gains, of which an index chooses one.
#[derive(Drop)]
pub struct ReceiveGain {
    gains: [Gain; 128],
    ghost all: { length gains ≡ 128 },
}

impl ReceiveGain {
    /// Entry i is the gain of index i, 0 to 127.
    pub fn new(gains: [Gain; 128]) -> Self
        ensures { result.gains ≡ gains }
    {
        ReceiveGain { gains }
    }
}

impl<K: Sample> Mapping for FixedGain<K> {
    ghost use Rattle.stages.specs.Gain.{gained};

    type From = K;

    type To = AirSample;

    ghost formula = { λ s x. gained s.gain (K.Sample.real x) (K.Sample.imaginary x) };

    #[inline(always)]
    fn apply(&self, x: K) -> AirSample {
        self.gain.gained(x)
    }
}

impl Mapping for ReceiveGain {
    ghost use Rattle.stages.specs.Gain.{gained, chosen};

    type From = (AirSample, GainIndex);

    type To = AirSample;

    ghost formula = { λ s x. gained (chosen s.gains x.1) x.0.re x.0.im };

    #[inline(always)]
    fn apply(&self, x: (AirSample, GainIndex)) -> AirSample {
        let (sample, index) = x;
        self.gains[usize::from(index.index)].gained(sample)
    }
}
