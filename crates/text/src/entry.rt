// One line, as words.
ghost use Rattle.std.specs.Prelude.{◌≡◌, [], ◌∷◌, MatchOption, MatchResult};
ghost use Rattle.std.specs.Str.{IsUtf8};
ghost use Rattle.text.specs.Faults.{Unknown};
ghost use Rattle.text.specs.Taking.{words_left};
ghost use Rattle.text.specs.Words.{words_of};
ghost use Rattle.text.specs.declared.fault.Wrong.TheVariants.{NoText};

use crate::fault::{Wrong, quoted};
use crate::numbers::Numbers;
use std::alloc::Global;
use std::str::{SplitAsciiWhitespace, from_utf8};

/// The words of a line that are not taken yet, its comment left out.
#[derive(Drop)]
pub struct Entry<'a> {
    pub(crate) words: SplitAsciiWhitespace<'a>,
    pub(crate) heap: Global,
}

impl<'a> Entry<'a> {
    /// The words up to the line's first `#`, if the line is UTF-8 text.
    pub fn of(heap: Global, line: &'a [u8]) -> Result<Entry<'a>, Wrong>
        ensures { MatchResult result
            (λ entry. IsUtf8 line.now × (words_left entry ≡ words_of line.now))
            (λ wrong. ¬ (IsUtf8 line.now) × (wrong ≡ NoText)) }
    {
        let Ok(text) = from_utf8(line) else {
            return Err(Wrong::NoText);
        };
        let entry = match text.split_once('#') {
            Some((entry, _)) => entry,
            None => text,
        };
        Ok(Entry {
            words: entry.split_ascii_whitespace(),
            heap,
        })
    }

    /// The next word, if there is one.
    pub fn word(&mut self) -> Option<&'a str>
        ensures { MatchOption result
            ((words_left self.old ≡ []) × (words_left self.new ≡ []))
            (λ word. words_left self.old ≡ word.now ∷ words_left self.new) }
    {
        self.words.next()
    }

    /// The words that are left, as the numbers of a line of this form.
    pub fn form(self, form: &'static str) -> Numbers<'a>
        ensures words { result.words ≡ self.entry }
        ensures form { result.form ≡ form.entry }
    {
        Numbers { words: self, form }
    }

    /// That the line begins with a word that names nothing of this kind.
    pub fn unknown(&self, word: &str, kind: &'static str) -> Wrong
        ensures { Unknown kind.now word.now result }
    {
        match quoted(self.heap, word) {
            Ok(word) => Wrong::UnknownWord(word, kind),
            Err(_) => Wrong::Memory,
        }
    }
}
