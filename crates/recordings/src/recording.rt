// A recording that was opened: a source of the items in its data.
ghost use Rattle.std.specs.Prelude.{◌≡◌, ◌≤◌, length};
ghost use Rattle.recordings.specs.Items.{whole_of, left_of};
ghost use Rattle.recordings.specs.Opening.{opening, OpensAs};
ghost use Rattle.sources.specs.Streams.{answer, rest};

use crate::chunks::{Found, find_data};
use crate::layout::Layout;
use crate::refusal::OpeningRefusal;
use sources::fault::Fault;
use sources::source::Source;
use std::marker::{Model, PhantomData};

/// What a recording holds: a source of its items. The fault of a bad item holds what is wrong with it, the recording's
/// input number, and the item's place, from 0.
#[derive(Drop)]
pub struct Content<'a, L> {
    // The number by which faults name the recording. The caller chooses it.
    input: u8,
    // The bytes of all items, and of those that are left.
    whole: &'a [u8],
    left: &'a [u8],
    layout: PhantomData<L>,
    ghost part: { length left.now ≤ length whole.now },
}

/// An opened recording: a source of its items, which knows its rate.
#[derive(Drop)]
pub struct Recording<'a, L: Layout> {
    rate: u32,
    /// Its items. A caller that lends only this part knows that the rate stays.
    pub content: Content<'a, L>,
}

// In clauses a recording is its rate, what it holds, and what is left.
impl<'a, L: Layout> Model for Recording<'a, L> {
    ghost use Rattle.recordings.specs.Items.{whole_of, left_of};
    ghost use Rattle.recordings.specs.Opening.{Reading};

    ghost Value = { Reading L.Item };

    ghost view = { λ r. record {
      rate = r.rate;
      whole = whole_of L.meaning L.FORMAT.align r.content.input r.content.whole.now;
      left = left_of L.meaning L.FORMAT.align r.content.input r.content.whole.now
          r.content.left.now;
    } };
}

impl<'a, L: Layout> Recording<'a, L> {
    /// Opens the bytes as a recording of the kind L; its faults will name it by the input number, 0 to 255. Refused, with
    /// a byte place, where the bytes are no such recording. No item is looked at yet.
    pub fn open(bytes: &'a [u8], input: u8) -> Result<Self, OpeningRefusal>
        ensures { OpensAs result (opening L.FORMAT L.meaning input bytes.now) }
    {
        let Found { rate, start, size } = find_data(bytes, L::FORMAT)?;
        let whole = &bytes[start..start + size];
        let content = Content {
            input,
            whole,
            left: whole,
            layout: PhantomData,
        };
        Ok(Recording { rate, content })
    }

    /// The items a second that the recording was made with, 1 to 100,000,000.
    pub fn rate(&self) -> u32
        ensures { result ≡ self.now.rate }
    {
        self.rate
    }
}

impl<'a, L: Layout> Source for Content<'a, L> {
    type Item = L::Item;

    ghost whole = { λ s. whole_of L.meaning L.FORMAT.align s.input s.whole.now };

    ghost left = { λ s. left_of L.meaning L.FORMAT.align s.input s.whole.now s.left.now };

    #[inline(always)]
    fn next(&mut self) -> Result<Option<L::Item>, Fault> {
        let align = usize::from(L::FORMAT.align);
        if self.left.len() < align {
            return Ok(None);
        }
        let (bytes, rest) = self.left.split_at(align);
        match L::read(bytes) {
            Ok(item) => {
                self.left = rest;
                Ok(Some(item))
            }
            Err(kind) => {
                let item = (self.whole.len() - self.left.len()) / align;
                Err(Fault {
                    kind,
                    input: self.input,
                    item: item as u64,
                })
            }
        }
    }

    fn rewind(&mut self) {
        self.left = self.whole;
    }
}

impl<'a, L: Layout> Source for Recording<'a, L> {
    type Item = L::Item;

    ghost whole = { λ r. r.whole };

    ghost left = { λ r. r.left };

    // The clauses of every source, and that the rate stays.
    #[inline(always)]
    fn next(&mut self) -> Result<Option<L::Item>, Fault>
        ensures answers { result ≡ answer self.old.left }
        ensures moves { self.new.left ≡ rest self.old.left }
        ensures same { self.new.whole ≡ self.old.whole }
        ensures rate { self.new.rate ≡ self.old.rate }
    {
        self.content.next()
    }

    fn rewind(&mut self)
        ensures moves { self.new.left ≡ self.old.whole }
        ensures same { self.new.whole ≡ self.old.whole }
        ensures rate { self.new.rate ≡ self.old.rate }
    {
        self.content.rewind();
    }
}
