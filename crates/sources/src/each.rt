// A stage without a memory: each item is made of the item below at the same place.
ghost use Rattle.std.specs.Prelude.{◌≡◌};
ghost use Rattle.sources.specs.Meanings.{each_whole, each_left};
ghost use Rattle.sources.specs.Streams.{AtStart};
ghost use Rattle.sources.specs.Wholes.{each};

use crate::fault::Fault;
use crate::source::Source;

/// A formula from items of one kind to items of another.
pub trait Mapping {
    /// The kind of item below.
    type From: Copy;

    /// The kind of item that comes out.
    type To: Copy;

    /// What comes out for an item below.
    ghost formula: { Self → Self.From → Self.To };

    /// The formula of an item.
    fn apply(&self, x: Self::From) -> Self::To
        ensures { result ≡ formula self.now x };
}

/// The items below, each through a formula.
#[derive(Drop)]
pub struct Each<S, M> {
    below: S,
    mapping: M,
}

impl<S: Source, M: Mapping<From = S::Item>> Each<S, M> {
    /// Item k is the mapping's formula of item k below.
    pub fn new(mapping: M, mut below: S) -> Self
        ensures mapping { result.mapping ≡ mapping }
        ensures below { AtStart (S.Source.whole result.below) (S.Source.left result.below)
            (S.Source.whole below) }
        ensures starts { AtStart (each_whole M.Mapping.formula S.Source.whole result)
            (each_left M.Mapping.formula S.Source.left result)
            (each (M.Mapping.formula mapping) (S.Source.whole below)) }
    {
        below.rewind();
        Each { below, mapping }
    }
}

impl<S: Source, M: Mapping<From = S::Item>> Source for Each<S, M> {
    type Item = M::To;

    ghost whole = { each_whole M.Mapping.formula S.Source.whole };

    ghost left = { each_left M.Mapping.formula S.Source.left };

    #[inline(always)]
    fn next(&mut self) -> Result<Option<M::To>, Fault> {
        match self.below.next()? {
            Some(x) => Ok(Some(self.mapping.apply(x))),
            None => Ok(None),
        }
    }

    fn rewind(&mut self) {
        self.below.rewind();
    }
}
