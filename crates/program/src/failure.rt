// Why the program could not do what it was asked.
ghost use Rattle.std.specs.Prelude.{◌≡◌};
ghost use Rattle.program.specs.declared.failure.Failure.TheVariants as failures;

use crate::printing::{Refused, Shown};
use recorder::refusal::WritingRefusal;
use sources::fault::AtItem;
use std::alloc::{AllocError, AllocFailed, Global};
use std::io;
use text::fault::WrongLine;
use text::settings_file::fault::LineFault;
use thiserror::Error;

/// Why a run stops. A word or a file's name is lent from the command line.
#[derive(Debug, Drop, Error)]
pub enum Failure<'a> {
    /// A word of the command line is no text; what can be shown of it.
    #[error("the word '{0}' is not UTF-8 text, and files are named by text here")]
    NoText(String),
    /// A word of the command line is longer than the system allows.
    #[error("a word of the command line is too long")]
    LongWord,
    /// No command has this name.
    #[error("there is no command '{0}'; 'tigwedan help' shows the commands")]
    UnknownCommand(Shown<'a>),
    /// No command has this name, and one has a name much like it.
    #[error("there is no command '{0}'; is '{1}' meant? 'tigwedan help' shows the commands")]
    NearCommand(Shown<'a>, &'static str),
    /// A recording is opened as something that it cannot be.
    #[error("a recording is opened as 'signal' or 'gain', not '{0}'")]
    UnknownKind(Shown<'a>),
    /// The command has too few or too many words; its form.
    #[error("usage: tigwedan {0}")]
    WrongCount(&'static str),
    /// The number of runs is no number, or 0, or too great.
    #[error("the runs must be a whole number from 1 to 4294967295, not '{0}'")]
    WrongRuns(Shown<'a>),
    /// The file cannot be read.
    #[error("{0}: cannot be read: {1}")]
    Reading(&'a str, io::Error),
    /// The file does not open as a recording.
    #[error("{0}: {1}")]
    Refused(&'a str, Refused),
    /// A line of the settings file is wrong or refused.
    #[error("{0}:{1}")]
    Settings(&'a str, LineFault),
    /// A line of the file of calls is wrong.
    #[error("{0}:{1}")]
    Calls(&'a str, WrongLine),
    /// The recording of the file ends in a fault.
    #[error("{0}: {1}: {kind}", kind = .1.0.kind)]
    Faulted(&'a str, AtItem),
    /// Other samples came out in blocks of another size; the report says where.
    #[error("the block size changes what is played")]
    BlocksDiffer,
    /// Other samples came out at this run, counted from 0, than at the first.
    #[error("run {0} played other samples than run 0")]
    RunsDiffer(u32),
    /// A file of this name would be written, and is an input of the run.
    #[error("{0}: is the input {1} of this run, and is not written over; nothing was written")]
    Overwrites(String, &'a str),
    /// A file of this name would be written, and is there already, without being a recording.
    #[error("{0}: is there, and is no recording, so it is not written over; nothing was written")]
    KeepsOther(String),
    /// The file cannot be written.
    #[error("{0}: cannot be written: {1}")]
    Writing(String, io::Error),
    /// The writer of recordings refuses.
    #[error("the recording cannot be written: {0}")]
    NotRecorded(WritingRefusal),
    /// The signal takes more files than are counted.
    #[error("the signal takes more than 4294967294 files")]
    TooManyFiles,
    /// What is reported cannot be written, or the clock cannot be read.
    #[error("the output cannot be written: {0}")]
    Printing(io::Error),
    /// There is not enough memory.
    #[error("there is not enough memory")]
    Memory,
}

impl<'a> From<WritingRefusal> for Failure<'a> {
    ghost from_gives = { λ refusal failure. failure ≡ failures.NotRecorded refusal };

    fn from(refusal: WritingRefusal) -> Failure<'a> {
        Failure::NotRecorded(refusal)
    }
}

impl<'a> From<io::Error> for Failure<'a> {
    ghost from_gives = { λ error failure. failure ≡ failures.Printing error };

    fn from(error: io::Error) -> Failure<'a> {
        Failure::Printing(error)
    }
}

impl<'a> From<AllocError> for Failure<'a> {
    ghost from_gives = { λ _ failure. failure ≡ failures.Memory };

    fn from(_error: AllocError) -> Failure<'a> {
        Failure::Memory
    }
}

impl<'a, T: Drop> From<AllocFailed<T>> for Failure<'a> {
    ghost from_gives = { λ _ failure. failure ≡ failures.Memory };

    fn from(_error: AllocFailed<T>) -> Failure<'a> {
        Failure::Memory
    }
}

impl<'a> Failure<'a> {
    ghost use Rattle.std.specs.Prelude.{◌≡◌, ℕ, List, IfOk, string_bytes};
    ghost use Rattle.program.specs.Refusals.{is_answer};
    ghost use Rattle.program.specs.Words.{shown};

    /// What is printed of it: one line, with an escape in place of each control character of a name or a quoted word.
    pub fn line(&self, heap: Global) -> Result<String, AllocError>
        ensures { IfOk result (λ line. (text : List ℕ) × (string_bytes line ≡ shown text)) }
    {
        let text = format!(in heap; "{self}")?;
        let shown = Shown(text.as_str());
        format!(in heap; "{shown}")
    }

    /// Whether it is an answer about a file, which goes to the standard output; any other goes to the error output.
    pub fn is_answer(&self) -> bool
        ensures { result ≡ is_answer self.now }
    {
        matches!(
            self,
            Failure::Refused(..) | Failure::Settings(..) | Failure::Calls(..)
        )
    }
}
