// Why a settings file stops: the first line that is wrong or refused.
ghost use Rattle.std.specs.Prelude.{◌≡◌, Some};
ghost use Rattle.text.specs.SettingMessages.{line_fault_text, stop_text};
ghost use Rattle.text.specs.declared.settings_file.fault.Stop.TheVariants.{Wrong};

use crate::fault::{Wrong, WrongLine};
use settings::refusal::SettingRefusal;
use std::fmt;

/// Why a line stops the file.
#[derive(Drop, Debug)]
pub enum Stop {
    /// The line is no setting.
    Wrong(Wrong),
    /// The line is a setting, and its numbers are refused.
    Refused(SettingRefusal),
}

/// The line that stops a file, and why.
/// A type of its own, not a `Numbered<Stop>`: only so `?` makes it of a wrong line.
#[derive(Drop, Debug)]
pub struct LineFault {
    /// From 1; from line 2^64 − 1 on, that number.
    pub line: u64,
    /// Why it stops there.
    pub stop: Stop,
}

impl From<WrongLine> for LineFault {
    ghost from_gives = { λ wrong fault.
        fault ≡ record { line = wrong.line; stop = Wrong wrong.held } };

    fn from(wrong_line: WrongLine) -> LineFault {
        LineFault {
            line: wrong_line.line,
            stop: Stop::Wrong(wrong_line.held),
        }
    }
}

/// What is wrong with the line, or `refused 1: TEXT`.
impl fmt::Display for Stop {
    ghost output = { λ stop. Some (stop_text stop) };

    fn fmt<W: fmt::Write>(&self, f: &mut fmt::Formatter<W>) -> fmt::Result {
        match self {
            Stop::Wrong(wrong) => write!(f, "{wrong}"),
            Stop::Refused(refusal) => {
                let number = refusal.number();
                write!(f, "refused {number}: {refusal}")
            }
        }
    }
}

/// `4: TEXT`, by the number of the line.
impl fmt::Display for LineFault {
    ghost output = { λ fault. Some (line_fault_text fault) };

    fn fmt<W: fmt::Write>(&self, f: &mut fmt::Formatter<W>) -> fmt::Result {
        let line = self.line;
        let stop = &self.stop;
        write!(f, "{line}: {stop}")
    }
}
