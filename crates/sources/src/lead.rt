// A lead: copies of a given item, then what is below.
ghost use Rattle.std.specs.Prelude.{◌≡◌};
ghost use Rattle.sources.specs.Meanings.{lead_whole, lead_left};
ghost use Rattle.sources.specs.Streams.{AtStart};
ghost use Rattle.sources.specs.Wholes.{behind_lead};

use crate::fault::Fault;
use crate::held::Held;
use crate::source::Source;

/// Copies of an item, and the items below.
#[derive(Drop)]
pub struct Lead<S: Source> {
    copies: Held<S::Item>,
    below: S,
}

impl<S: Source> Lead<S> {
    /// The item `copies` times, 0 to 65535, then the whole below.
    pub fn new(copies: u16, item: S::Item, mut below: S) -> Self
        ensures { AtStart (lead_whole S.Source.whole result) (lead_left S.Source.left result)
            (behind_lead copies item (S.Source.whole below)) }
    {
        below.rewind();
        Lead {
            copies: Held::new(item, u32::from(copies)),
            below,
        }
    }
}

impl<S: Source> Source for Lead<S> {
    type Item = S::Item;

    ghost whole = { lead_whole S.Source.whole };

    ghost left = { lead_left S.Source.left };

    #[inline(always)]
    fn next(&mut self) -> Result<Option<S::Item>, Fault> {
        match self.copies.next()? {
            Some(x) => Ok(Some(x)),
            None => self.below.next(),
        }
    }

    fn rewind(&mut self) {
        self.copies.rewind();
        self.below.rewind();
    }
}
