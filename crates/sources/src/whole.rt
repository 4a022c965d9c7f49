// Wholes as lists: all that a source hands out, and how it ends.
ghost use Rattle.std.specs.Prelude.{◌≡◌, ◌≢◌, [], IfOk, OnOk, OnErr};
ghost use Rattle.sources.specs.Differences.{whole_difference};
ghost use Rattle.sources.specs.Streams.{passed_over};

use crate::difference::first_difference;
use crate::fault::Ending;
use crate::source::Source;
use std::alloc::{AllocError, Global};

/// A whole as a list: the items, and how they end.
#[derive(Debug, Drop)]
pub struct Whole<T, E> {
    /// The items, in order.
    pub items: Vec<T>,
    /// How they end.
    pub ending: E,
}

impl<T: Copy> Whole<T, Ending> {
    /// All that the source has left, which is then at its end. Out of memory is reported only where there is an item to hold.
    pub fn of<S: Source<Item = T>>(
        heap: Global,
        source: &mut S,
    ) -> Result<Whole<T, Ending>, AllocError>
        ensures items { IfOk result (λ w. w.items.items ≡ (S.left source.old).items) }
        ensures ending { IfOk result (λ w. w.ending ≡ (S.left source.old).ending) }
        ensures moves { OnOk result (S.left source.new ≡ passed_over (S.left source.old)) }
        ensures same { S.whole source.new ≡ S.whole source.old }
        ensures memory { OnErr result ((S.left source.old).items ≢ []) }
    {
        let mut items = Vec::new(heap);
        for item in source.items() {
            items.push(item)?;
        }
        let ending = source.ending();
        Ok(Whole { items, ending })
    }
}

impl<T: PartialEq, E: PartialEq> Whole<T, E> {
    /// The first place at which they differ, from 0; the endings stand behind the last item.
    #[tactic(auto, using(crate::proofs::Prefixes::prefix_is_all))]
    pub fn first_difference(&self, other: &Whole<T, E>) -> Option<usize>
        ensures { result ≡ whole_difference T.eq E.eq self.now other.now }
    {
        let place = first_difference(self.items.as_slice(), other.items.as_slice());
        if place.is_none() && self.ending != other.ending {
            Some(self.items.len())
        } else {
            place
        }
    }
}
