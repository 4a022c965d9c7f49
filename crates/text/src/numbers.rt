// The numbers of a line, behind its first word.
ghost use Rattle.std.specs.Prelude.{◌≡◌, ℕ, List, [], ◌∷◌, Some, MatchResult};
ghost use Rattle.text.specs.Faults.{kind_of, Mistaken, FailsAt, Exceeds, NoRow, NoRows, SayRows, TakesNumber};
ghost use Rattle.text.specs.Taking.{numbers_left};

use crate::entry::Entry;
use crate::fault::{Wrong, quoted};
use crate::number::Number;
use crate::row::Row;

/// The words that are not taken yet, and the form that the line should have.
#[derive(Drop)]
pub struct Numbers<'a> {
    pub(crate) words: Entry<'a>,
    pub(crate) form: &'static str,
}

impl<'a> Numbers<'a> {
    // The word as a number.
    pub(crate) fn of_word<N: Number>(&self, word: &str) -> Result<N, Wrong>
        ensures { MatchResult result
            (λ number. N.spelled word.now ≡ Some number)
            (Mistaken (kind_of N.spelled N.range) word.now) }
    {
        let Some(number) = N::read(word) else {
            return Err(Wrong::NoNumber(quoted(self.words.heap, word)?, N::range()));
        };
        Ok(number)
    }

    // The next word as a number, which the form has here.
    pub(crate) fn number<N: Number>(&mut self) -> Result<N, Wrong>
        ensures read { MatchResult result
            (TakesNumber N.spelled (numbers_left self.old) (numbers_left self.new))
            (FailsAt self.old.form.now (kind_of N.spelled N.range) (numbers_left self.old)) }
        ensures form { self.new.form ≡ self.old.form }
    {
        let word = self.words.word().ok_or(Wrong::Missing(self.form))?;
        self.of_word(word)
    }

    /// Refused with `Superfluous` if a word is left.
    pub fn end(mut self) -> Result<(), Wrong>
        ensures { MatchResult result
            (λ _. numbers_left self.entry ≡ [])
            (Exceeds self.entry.form.now [] (numbers_left self.entry)) }
    {
        match self.words.word() {
            None => Ok(()),
            Some(word) => Err(Wrong::Superfluous(quoted(self.words.heap, word)?, self.form)),
        }
    }

    /// The one row of numbers that the form has. Refused for the first word that is no number of
    /// its kind, for a number that is missing, or for a word behind the row.
    pub fn row<R: Row>(mut self) -> Result<R, Wrong>
        ensures { MatchResult result
            (R.Says (numbers_left self.entry))
            (NoRow self.entry.form.now (R.kind ∷ R.kinds_behind) (numbers_left self.entry)) }
    {
        let Some(first) = self.words.word() else {
            return Err(Wrong::Missing(self.form));
        };
        let row = R::read(first, &mut self)?;
        self.end()?;
        Ok(row)
    }

    /// Whole rows, as many as there are. Refused for the first word that is no number of its kind,
    /// for a number that is missing in the last row, or if there is no memory to keep a row.
    pub fn rows<R: Row>(mut self) -> Result<Vec<R>, Wrong>
        ensures { MatchResult result
            (λ rows. SayRows R.Says (numbers_left self.entry) rows.items)
            (NoRows self.entry.form.now (R.kind ∷ R.kinds_behind) (numbers_left self.entry)) }
    {
        let mut rows = Vec::new(self.words.heap);
        while let Some(first) = self.words.word() {
            rows.push(R::read(first, &mut self)?)?;
        }
        Ok(rows)
    }
}
