// The interface of every source.
ghost use Rattle.std.specs.Prelude.{◌≡◌};
ghost use Rattle.sources.specs.Streams.{Stream, answer, passed_over, rest};

use crate::fault::{Ending, Fault};
use crate::items::Items;

/// A supply of items of a single kind, which come one after the other and can be had again from the start.
pub trait Source {
    /// The kind of item that it hands out.
    type Item: Copy;

    /// Everything that it hands out from its start, and how that ends.
    ghost whole: { Self → Stream Self.Item };

    /// What it hands out from where it stands, and how that ends.
    ghost left: { Self → Stream Self.Item };

    /// The first item of what is left, which then loses it; at the end no item, or the fault, and nothing moves.
    fn next(&mut self) -> Result<Option<Self::Item>, Fault>
        ensures answers { result ≡ answer (left self.old) }
        ensures moves { left self.new ≡ rest (left self.old) }
        ensures same { whole self.new ≡ whole self.old };

    /// Back to the start: the whole is left again.
    fn rewind(&mut self)
        ensures moves { left self.new ≡ whole self.old }
        ensures same { whole self.new ≡ whole self.old };

    /// What is left, item by item.
    final fn items(&mut self) -> Items<'_, Self>
    where
        Self: Sized,
        ensures source { result.source.now ≡ self.old }
        ensures same_reference { result.source.ghost_name ≡ self.entry.ghost_name }
    {
        Items::new(self)
    }

    /// Passes over what is left, and answers how it ends.
    final fn ending(&mut self) -> Ending
    where
        Self: Sized,
        ensures tells { result ≡ (left self.old).ending }
        ensures moves { left self.new ≡ passed_over (left self.old) }
        ensures same { whole self.new ≡ whole self.old }
    {
        while self.next()?.is_some() {}
        Ok(())
    }
}
