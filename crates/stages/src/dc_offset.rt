// DC offset: a constant added to every sample, of any kind.
ghost use Rattle.std.specs.Prelude.{◌≡◌};
ghost use Rattle.stages.specs.DcOffset.{offset_by};

use samples::sample::Sample;
use sources::each::Mapping;
use std::marker::PhantomData;

/// A DC offset, added to each part, in the sample's own units.
#[derive(Clone, Copy, PartialEq, Eq, Debug)]
pub struct Offset {
    /// Added to the real part.
    pub re: i16,
    /// Added to the imaginary part.
    pub im: i16,
}

/// The offset added to each sample of kind K, which stands in the type: a mapping has one kind of item.
#[derive(Drop)]
pub struct DcOffset<K> {
    offset: Offset,
    kind: PhantomData<K>,
}

impl<K: Sample> DcOffset<K> {
    /// Adds this offset to each part.
    pub fn new(offset: Offset) -> Self
        ensures { result.offset ≡ offset }
    {
        DcOffset {
            offset,
            kind: PhantomData,
        }
    }
}

impl<K: Sample> Mapping for DcOffset<K> {
    type From = K;

    type To = K;

    ghost formula = { λ s x.
        offset_by K.Sample.sample s.offset (K.Sample.real x) (K.Sample.imaginary x) };

    #[inline(always)]
    fn apply(&self, x: K) -> K {
        let re = i64::from(x.re()) + i64::from(self.offset.re);
        let im = i64::from(x.im()) + i64::from(self.offset.im);
        K::new(re, im)
    }
}
