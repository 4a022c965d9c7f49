// A lowest source: the items of a list, then an ending.
ghost use Rattle.std.specs.Prelude.{◌≡◌};
ghost use Rattle.sources.specs.Meanings.{listed_whole, listed_left};
ghost use Rattle.sources.specs.Streams.{AtStart};

use crate::fault::{Ending, Fault};
use crate::source::Source;

/// All items, those that are left, and how they end.
#[derive(Clone, Copy)]
pub struct Listed<'a, T> {
    whole: &'a [T],
    left: &'a [T],
    ending: Ending,
}

impl<'a, T: Copy> Listed<'a, T> {
    /// Hands out every item of the list, then ends so.
    pub fn new(items: &'a [T], ending: Ending) -> Self
        ensures { AtStart (listed_whole result) (listed_left result)
            (record { items = items.now; ending = ending }) }
    {
        Listed {
            whole: items,
            left: items,
            ending,
        }
    }
}

impl<'a, T: Copy> Source for Listed<'a, T> {
    type Item = T;

    ghost whole = { listed_whole };

    ghost left = { listed_left };

    fn next(&mut self) -> Result<Option<T>, Fault> {
        let Some((item, rest)) = self.left.split_first() else {
            return self.ending.map(|()| None);
        };
        self.left = rest;
        Ok(Some(*item))
    }

    fn rewind(&mut self) {
        self.left = self.whole;
    }
}
