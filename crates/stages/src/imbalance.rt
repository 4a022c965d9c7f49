// I/Q imbalance: the two branches of a mixer differ in gain, and one leaks into the other.
ghost use Rattle.std.specs.Prelude.{◌≡◌};
ghost use Rattle.stages.specs.Imbalance.{balanced, balanced_re, balanced_im};

use samples::arithmetic::{floor_shift, times};
use samples::sample::Sample;
use sources::each::Mapping;
use std::marker::PhantomData;

/// The three numbers of an I/Q imbalance, 16384 for 1: re becomes a × re + c × im, and im becomes b × im.
#[derive(Clone, Copy, PartialEq, Eq, Debug)]
pub struct Balance {
    /// The gain of the real branch.
    pub a: i16,
    /// The gain of the imaginary branch.
    pub b: i16,
    /// What leaks from the imaginary branch into the real one.
    pub c: i16,
}

impl Balance {
    // The real part, before it is clipped.
    fn real(self, re: i32, im: i32) -> i64
        ensures { result ≡ balanced_re self re im }
    {
        let own = times(i32::from(self.a), re);
        let leaked = times(i32::from(self.c), im);
        floor_shift(own + leaked, 14)
    }

    // The imaginary part, before it is clipped.
    fn imaginary(self, im: i32) -> i64
        ensures { result ≡ balanced_im self im }
    {
        floor_shift(times(i32::from(self.b), im), 14)
    }
}

/// The imbalance of every sample of kind K, which stands in the type: a mapping has one kind of item.
#[derive(Drop)]
pub struct Imbalance<K> {
    balance: Balance,
    kind: PhantomData<K>,
}

impl<K: Sample> Imbalance<K> {
    /// 16384 stands for 1; every number is good.
    pub fn new(balance: Balance) -> Self
        ensures { result.balance ≡ balance }
    {
        Imbalance {
            balance,
            kind: PhantomData,
        }
    }
}

impl<K: Sample> Mapping for Imbalance<K> {
    type From = K;

    type To = K;

    ghost formula = { λ s x.
        balanced K.Sample.sample s.balance (K.Sample.real x) (K.Sample.imaginary x) };

    #[inline(always)]
    fn apply(&self, x: K) -> K {
        let real = x.re();
        let imaginary = x.im();
        let re = self.balance.real(real, imaginary);
        let im = self.balance.imaginary(imaginary);
        K::new(re, im)
    }
}
