// A held item: the same item again and again, so many times.
ghost use Rattle.std.specs.Prelude.{◌≡◌};
ghost use Rattle.sources.specs.Meanings.{held_whole, held_left};
ghost use Rattle.sources.specs.Streams.{AtStart};
ghost use Rattle.sources.specs.Wholes.{held};

use crate::fault::Fault;
use crate::source::Source;

/// An item, how often it comes in all, 0 to 2^32 - 1, and how often it is still to come.
#[derive(Drop)]
pub struct Held<T> {
    item: T,
    times: u32,
    // At most `times`.
    remaining: u32,
}

impl<T: Copy> Held<T> {
    /// The item `times` times, 0 to 2^32 - 1.
    pub fn new(item: T, times: u32) -> Self
        ensures { AtStart (held_whole result) (held_left result) (held times item) }
    {
        Held {
            item,
            times,
            remaining: times,
        }
    }
}

impl<T: Copy> Source for Held<T> {
    type Item = T;

    ghost whole = { held_whole };

    ghost left = { held_left };

    #[inline(always)]
    fn next(&mut self) -> Result<Option<T>, Fault> {
        if self.remaining == 0 {
            return Ok(None);
        }
        self.remaining -= 1;
        Ok(Some(self.item))
    }

    fn rewind(&mut self) {
        self.remaining = self.times;
    }
}
