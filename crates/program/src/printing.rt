// What the program prints of recordings and of words.
ghost use Rattle.std.specs.Prelude.{Some};
ghost use Rattle.std.specs.Fmt.{WritesOnOk};
ghost use Rattle.std.specs.Char.Escape.{escape_default};
ghost use Rattle.std.specs.Str.{encode_utf8_all};
ghost use Rattle.program.specs.Arguments.{kind_word};
ghost use Rattle.sources.specs.Faults.{at_item_text};
ghost use Rattle.player.specs.Words.{player_fault_text};
ghost use Rattle.program.specs.Words.{ending_text, files_text, refused_text, shown, shown_char};

use crate::block::ChainEnding;
use recordings::pair::Input;
use recordings::refusal::OpeningRefusal;
use sources::fault::{AtItem, Ending};
use std::fmt;

/// How a recording ends, in the words of a summary: `finished`, or `then` and the fault at its item.
#[derive(Clone, Copy, Debug)]
pub struct Ends(pub Ending);

impl fmt::Display for Ends {
    ghost output = { λ ends. Some (ending_text at_item_text ends.0) };

    fn fmt<W: fmt::Write>(&self, f: &mut fmt::Formatter<W>) -> fmt::Result {
        match self.0 {
            Ok(()) => write!(f, "finished"),
            Err(fault) => {
                let fault = AtItem(fault);
                write!(f, "then {fault}")
            }
        }
    }
}

/// How a chain ends, in the words of a summary: `finished`, or `then` and the fault at the place where the player met it.
#[derive(Clone, Copy, Debug)]
pub struct ChainEnds(pub ChainEnding);

impl fmt::Display for ChainEnds {
    ghost output = { λ ends. Some (ending_text player_fault_text ends.0) };

    fn fmt<W: fmt::Write>(&self, f: &mut fmt::Formatter<W>) -> fmt::Result {
        match self.0 {
            Ok(()) => write!(f, "finished"),
            Err(met) => write!(f, "then {met}"),
        }
    }
}

/// Where the files of a signal stand: the first, and the last where there are several, the rate, and how many.
#[derive(Clone, Copy, Debug)]
pub struct Files<'a> {
    /// The name of the first file.
    pub to: &'a str,
    /// The name of the last file.
    pub last: &'a str,
    /// In samples a second.
    pub rate: u32,
    /// How many files there are.
    pub files: u32,
}

impl<'a> fmt::Display for Files<'a> {
    ghost output = { λ all. Some (files_text all.to.now all.last.now all.rate all.files) };

    fn fmt<W: fmt::Write>(&self, f: &mut fmt::Formatter<W>) -> fmt::Result {
        let to = Shown(self.to);
        let last = Shown(self.last);
        let rate = self.rate;
        let files = self.files;
        if files == 1 {
            write!(f, "{to}: rate {rate}, 1 file")
        } else {
            write!(f, "{to} to {last}: rate {rate}, {files} files")
        }
    }
}

/// Why a recording does not open: `refused`, the number, the byte place, and the words.
#[derive(Clone, Copy, Debug)]
pub struct Refused(pub OpeningRefusal);

impl fmt::Display for Refused {
    ghost output = { λ refused. Some (refused_text refused.0) };

    fn fmt<W: fmt::Write>(&self, f: &mut fmt::Formatter<W>) -> fmt::Result {
        let number = self.0.number();
        let place = self.0.place();
        let refusal = self.0;
        write!(f, "refused {number} at byte {place}: {refusal}")
    }
}

/// The word of the command line for what a file is opened as.
#[derive(Clone, Copy, Debug)]
pub struct Kind(pub Input);

impl fmt::Display for Kind {
    ghost output = { λ kind. Some (kind_word kind.0) };

    fn fmt<W: fmt::Write>(&self, f: &mut fmt::Formatter<W>) -> fmt::Result {
        match self.0 {
            Input::Signal => write!(f, "signal"),
            Input::Gain => write!(f, "gain"),
        }
    }
}

/// A word of the command line or a message, with an escape in place of each control character.
#[derive(Clone, Copy, Debug)]
pub struct Shown<'a>(pub &'a str);

fn write_escape<W: fmt::Write>(f: &mut fmt::Formatter<W>, c: char) -> fmt::Result
    ensures { WritesOnOk W.write_str_gives f.old result
        (encode_utf8_all (escape_default c)) f.new }
{
    for part in c.escape_default() {
        write!(f, "{part}")?;
    }
    Ok(())
}

fn write_shown<W: fmt::Write>(f: &mut fmt::Formatter<W>, c: char) -> fmt::Result
    ensures { WritesOnOk W.write_str_gives f.old result (shown_char c) f.new }
{
    if c.is_control() {
        write_escape(f, c)
    } else {
        write!(f, "{c}")
    }
}

impl<'a> fmt::Display for Shown<'a> {
    ghost output = { λ word. Some (shown word.0.now) };

    fn fmt<W: fmt::Write>(&self, f: &mut fmt::Formatter<W>) -> fmt::Result {
        for c in self.0.chars() {
            write_shown(f, c)?;
        }
        Ok(())
    }
}
