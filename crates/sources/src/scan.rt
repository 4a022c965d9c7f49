// A stage with a memory: one item out for one item in, made of it and of what went before. Apart from Each, since a memory
// changes at each item.
ghost use Rattle.std.specs.Prelude.{◌≡◌, List, ◌∷◌, length};
ghost use Rattle.sources.specs.Meanings.{scan_whole, scan_left};
ghost use Rattle.sources.specs.Streams.{AtStart};
ghost use Rattle.sources.specs.Wholes.{transformed, SameLength};

use crate::fault::Fault;
use crate::source::Source;

/// A formula with a memory of what went before.
pub trait Memory {
    /// The kind of item below.
    type From: Copy;

    /// The kind of item that comes out.
    type To: Copy;

    /// What it makes of a list of items, from where it stands.
    ghost makes: { Self → List Self.From → List Self.To };

    /// What it makes of a list of items, from its start.
    ghost fresh: { Self → List Self.From → List Self.To };

    /// What comes out for the next item, which is then remembered.
    fn step(&mut self, x: Self::From) -> Self::To
        ensures steps { (xs : List Self.From) →
            makes self.old (x ∷ xs) ≡ result ∷ makes self.new xs }
        ensures same { fresh self.new ≡ fresh self.old };

    /// Back to the start: nothing is remembered.
    fn reset(&mut self)
        ensures starts { makes self.new ≡ fresh self.old }
        ensures same { fresh self.new ≡ fresh self.old };

    /// One item out for each item in.
    ghost same_length: { (s : Self) (xs : List Self.From) → length (makes s xs) ≡ length xs };
}

/// The items below, each through a formula that remembers those before it.
#[derive(Drop)]
pub struct Scan<S, M> {
    below: S,
    memory: M,
}

impl<S: Source, M: Memory<From = S::Item>> Scan<S, M> {
    /// The items are what the formula makes, from its start, of the items below.
    pub fn new(mut memory: M, mut below: S) -> Self
        ensures fresh { M.Memory.fresh result.memory ≡ M.Memory.fresh memory }
        ensures reset { M.Memory.makes result.memory ≡ M.Memory.fresh memory }
        ensures below { AtStart (S.Source.whole result.below) (S.Source.left result.below)
            (S.Source.whole below) }
        ensures starts { AtStart (scan_whole M.Memory.fresh S.Source.whole result)
            (scan_left M.Memory.makes S.Source.left result)
            (transformed (M.Memory.fresh memory) (S.Source.whole below)) }
        ensures as_many { SameLength (M.Memory.fresh memory) }
    {
        below.rewind();
        memory.reset();
        Scan { below, memory }
    }
}

impl<S: Source, M: Memory<From = S::Item>> Source for Scan<S, M> {
    type Item = M::To;

    ghost whole = { scan_whole M.Memory.fresh S.Source.whole };

    ghost left = { scan_left M.Memory.makes S.Source.left };

    #[inline(always)]
    fn next(&mut self) -> Result<Option<M::To>, Fault> {
        // Not `map`: after it nothing is known of a memory that the closure changed.
        match self.below.next()? {
            Some(x) => Ok(Some(self.memory.step(x))),
            None => Ok(None),
        }
    }

    fn rewind(&mut self) {
        self.below.rewind();
        self.memory.reset();
    }
}
