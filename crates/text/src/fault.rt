// What is wrong with a line.
ghost use Rattle.std.specs.Prelude.{◌≡◌, IfOk, Some, string_bytes};
ghost use Rattle.text.specs.Messages.{wrong_text};
ghost use Rattle.text.specs.Words.{quote_of};
ghost use Rattle.text.specs.declared.fault.Wrong.TheVariants.{Memory};

use crate::numbered::Numbered;
use std::alloc::{AllocError, AllocFailed, Global};
use std::fmt;

/// What is wrong with a line. Words of the line are quoted by their beginning, so that a message
/// stays short: at most 40 characters, and two dots where more follow.
#[derive(Drop, Debug)]
pub enum Wrong {
    /// The bytes are no UTF-8.
    NoText,
    /// The first word is none that can begin a line; what such a word names.
    UnknownWord(String, &'static str),
    /// A word that is no number of the kind that belongs there; which numbers these are.
    NoNumber(String, &'static str),
    /// A number is missing; the form that the line should have.
    Missing(&'static str),
    /// A word behind the last number; the form that the line should have.
    Superfluous(String, &'static str),
    /// There was no memory for what the line holds.
    Memory,
}

impl From<AllocError> for Wrong {
    ghost from_gives = { λ _ wrong. wrong ≡ Memory };

    fn from(_error: AllocError) -> Wrong {
        Wrong::Memory
    }
}

impl<T: Drop> From<AllocFailed<T>> for Wrong {
    ghost from_gives = { λ _ wrong. wrong ≡ Memory };

    fn from(_error: AllocFailed<T>) -> Wrong {
        Wrong::Memory
    }
}

/// What is wrong, with the word, the numbers that it may be, or the line's form.
impl fmt::Display for Wrong {
    ghost output = { λ wrong. Some (wrong_text wrong) };

    fn fmt<W: fmt::Write>(&self, f: &mut fmt::Formatter<W>) -> fmt::Result {
        match self {
            Wrong::NoText => write!(f, "the line is not UTF-8 text"),
            Wrong::UnknownWord(word, kind) => write!(f, "there is no {kind} '{word}'"),
            Wrong::NoNumber(word, range) => write!(f, "'{word}' is not {range}"),
            Wrong::Missing(form) => write!(f, "a number is missing: {form}"),
            Wrong::Superfluous(word, form) => write!(f, "'{word}' is too much: {form}"),
            Wrong::Memory => write!(f, "there is not enough memory"),
        }
    }
}

/// What is wrong with the first line of a file that is wrong.
pub type WrongLine = Numbered<Wrong>;

// There was no memory for what stands in the line.
impl<T: Drop> From<AllocFailed<Numbered<T>>> for WrongLine {
    ghost from_gives = { λ full wrong. wrong ≡ record { line = full.value.line; held = Memory } };

    fn from(error: AllocFailed<Numbered<T>>) -> WrongLine {
        Numbered {
            line: error.value.line,
            held: Wrong::Memory,
        }
    }
}

// The most characters of a word that are quoted.
const QUOTED: usize = 40;

// The word as it is quoted: whole, or its beginning and two dots.
pub(crate) fn quoted(heap: Global, word: &str) -> Result<String, AllocError>
    ensures { IfOk result (λ text. string_bytes text ≡ quote_of word.now) }
{
    let mut text: String = word.chars().take(QUOTED).collect(heap)?;
    if text.len() < word.len() {
        text.push_str("..")?;
    }
    Ok(text)
}
