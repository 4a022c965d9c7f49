// The entries of a file.
ghost use Rattle.std.specs.Prelude.{◌≡◌, ℕ, ◌<◌, List, [], ◌∷◌, length, IfErr, MatchOption, MatchResult};
ghost use Rattle.std.specs.Iterator.{at_most};
ghost use Rattle.std.specs.List.{AllZip};
ghost use Rattle.text.specs.declared.fault.Wrong.{Wrong};
ghost use Rattle.text.specs.Entries.{LineHolds, WrongText, Holds, Reads, FirstWrong, entries_of, entries_left};
ghost use Rattle.text.specs.Taking.{words_left};

use crate::entry::Entry;
use crate::fault::{Wrong, WrongLine};
use crate::lines::Lines;
use crate::numbered::Numbered;
use std::alloc::Global;
use std::marker::PhantomData;

/// What a line can hold.
pub trait Form: Drop + Sized {
    /// The words say this.
    ghost Says: { List (List ℕ) → Self → Type 0 };

    /// The words say nothing, and this is wrong with them.
    ghost Complains: { List (List ℕ) → Wrong → Type 0 };

    /// What the line says that begins with the word.
    fn read(word: &str, line: Entry<'_>) -> Result<Self, Wrong>
        ensures { MatchResult result
            (Says (word.now ∷ words_left line.entry))
            (Complains (word.now ∷ words_left line.entry)) };
}

// What the line holds, if it is more than blanks and a comment.
fn read_line<F: Form>(heap: Global, line: &[u8]) -> Result<Option<F>, Wrong>
    ensures { MatchResult result (LineHolds F.Says line.now) (WrongText F.Complains line.now) }
{
    let mut entry = Entry::of(heap, line)?;
    let Some(word) = entry.word() else {
        return Ok(None);
    };
    Ok(Some(F::read(word, entry)?))
}

/// What the lines hold that are not passed yet, in order; a line that is wrong is reported in its
/// place.
#[derive(Drop)]
pub struct Entries<'a, F> {
    heap: Global,
    lines: Lines<'a>,
    of: PhantomData<F>,
}

impl<'a, F: Form> Entries<'a, F> {
    /// All entries of the bytes, each read as the form F.
    pub fn of(heap: Global, bytes: &'a [u8]) -> Entries<'a, F>
        ensures { entries_left result ≡ entries_of bytes.now }
    {
        Entries {
            heap,
            lines: Lines::of(bytes),
            of: PhantomData,
        }
    }
}

impl<'a, F: Form> Iterator for Entries<'a, F> {
    type Item = Result<Numbered<F>, WrongLine>;

    ghost next_gives = { λ s r t. MatchOption r
        ((entries_left s ≡ []) × (entries_left t ≡ []))
        (λ read. (entry : ℕ × List ℕ) × (entries_left s ≡ entry ∷ entries_left t)
        × Reads F.Says F.Complains entry read) };

    ghost remaining = { λ s. at_most (length s.lines.rest.now) };

    fn next(&mut self) -> Option<Result<Numbered<F>, WrongLine>> {
        while let Some(Numbered { line, held: text }) = self.lines.next() {
            match read_line(self.heap, text) {
                Ok(None) => {}
                Ok(Some(held)) => return Some(Ok(Numbered { line, held })),
                Err(held) => return Some(Err(Numbered { line, held })),
            }
        }
        None
    }
}

/// What all entries of the bytes hold, in order, or the first that is wrong. Memory is taken to
/// keep an entry and to quote a word that is wrong: bytes without an entry are never refused.
pub fn read_all<F: Form>(heap: Global, bytes: &[u8]) -> Result<Vec<Numbered<F>>, WrongLine>
    ensures read { MatchResult result
        (λ all. AllZip (Holds F.Says) (entries_of bytes.now) all.items)
        (FirstWrong F.Says F.Complains (entries_of bytes.now)) }
    ensures memory { IfErr result (λ _. 0 < length (entries_of bytes.now)) }
{
    let mut all = Vec::new(heap);
    for entry in Entries::of(heap, bytes) {
        all.push(entry?)?;
    }
    Ok(all)
}
