// The command line: its words, the command that they say, and the text that shows every command.
ghost use Rattle.std.specs.Prelude.{◌≡◌, [], ◌∷◌, codes, map, length, string_bytes, IfOk, IfSome, MatchOption, MatchResult};
ghost use Rattle.program.specs.Arguments.{kind_word, SpellsRuns, Says, NoKind, NoRuns, IsNoFlag, IsNear, Unknown, WrongLength, Complains, chain_words, form_of};

use crate::failure::Failure;
use crate::inputs::Inputs;
use crate::printing::Shown;
use recordings::pair::Input;
use std::alloc::{AllocError, Global};
use std::env::{Env, FillError};
use std::str;
use strsim::levenshtein;
use text::number::Number;

/// The usage of every command.
pub const USAGE: &str = "tigwedan: a radio channel emulator

usage:
  tigwedan                          shows this text and a small demonstration
  tigwedan help                     shows this text; so do --help and -h
  tigwedan version                  shows the kit that the program is proved with; so does --version
  tigwedan check signal|gain FILE   opens FILE as a recording and says what it holds
  tigwedan copy IN OUT              reads the signal recording IN and writes it anew to OUT
  tigwedan play SIGNAL GAIN OUT [SETTINGS]
                                    plays SIGNAL through the radio link, with the receive gains that the
                                    indices in GAIN choose, and writes what the receiver's converter gives
  tigwedan replay SIGNAL GAIN CALLS [SETTINGS]
                                    makes the calls in CALLS on one player over the link and prints the answers;
                                    then plays the whole in three block sizes and compares
  tigwedan bench SIGNAL GAIN RUNS [SETTINGS]
                                    plays the link RUNS times and gives the best time an item

Recordings are RIFF/WAVE files. A signal recording has two channels (real and imaginary part) of 12 bits in 16, a gain
recording one channel of gain indices, 0 to 127, in 8 bits. A recording that is written has at most 65536 bytes, which
is 16373 samples: what is left goes to further files, named as OUT with -2, -3 .. before its ending. An input is never
written over, nor a file that is no recording.
SETTINGS has one setting a line, a word and its numbers; without it they are fresh. CALLS has one call a line:
next, fill N, skip N or rewind. In both, # starts a comment.
A recording or a line that is refused, or a fault that is met by copy, play or bench, ends the program with status 1.";

/// The program, and the kit that it is proved with.
pub const VERSION: &str = "tigwedan, proved with rattle-kit-13f logic dac8208d650f15bf";

// The most bytes of a word: what the system lets a program have, with one to spare.
const LONGEST: usize = 131_073;

// The bytes as far as they are text, with an escape in place of each other byte.
fn escaped(heap: Global, bytes: &[u8]) -> Result<String, AllocError> {
    let mut text = String::new(heap);
    for chunk in bytes.utf8_chunks() {
        text.push_str(chunk.valid())?;
        let invalid = chunk.invalid().escape_ascii();
        write!(text, "{invalid}")?;
    }
    Ok(text)
}

fn text_of<'a>(heap: Global, bytes: &[u8]) -> Result<String, Failure<'a>> {
    match str::from_utf8(bytes) {
        Ok(text) => Ok(String::from_str(heap, text)?),
        Err(_) => Err(Failure::NoText(escaped(heap, bytes)?)),
    }
}

/// The words behind the program's own name. A word that is no text is refused, as files are named by text.
pub fn words<'a, R: Env>(heap: Global, rt: &R) -> Result<Vec<String>, Failure<'a>> {
    let mut words = Vec::new(heap);
    let mut buffer = vec![in heap; 0; LONGEST]?;
    for place in 1..usize::MAX {
        match rt.arg(place, buffer.as_mut_slice()) {
            Ok(length) => words.push(text_of(heap, &buffer[..length])?)?,
            Err(FillError::NotPresent) => break,
            Err(FillError::TooLong) => return Err(Failure::LongWord),
        }
    }
    Ok(words)
}

/// What is done with a chain.
#[derive(Clone, Copy, Debug)]
pub enum Task<'a> {
    /// Its samples are written to the file.
    Play(&'a str),
    /// The calls in the file are made.
    Replay(&'a str),
    /// It is played so often, and timed.
    Bench(u32),
}

/// What the program is asked to do, with the names of its files.
#[derive(Clone, Copy, Debug)]
pub enum Command<'a> {
    /// The usage, and a small demonstration.
    Demonstrate,
    /// The usage.
    Help,
    /// The kit that the program is proved with.
    Version,
    /// A recording is opened as a signal or as gains.
    Check(Input, &'a str),
    /// A signal recording is written anew, under the second name.
    Copy(&'a str, &'a str),
    /// The standard chain is played.
    Chain(Inputs<'a>, Task<'a>),
}

// The commands that have a name.
const NAMES: [&str; 7] = [
    "help", "version", "check", "copy", "play", "replay", "bench",
];

// A name is near if so few letters are wrong, missing or too much.
const NEAR: usize = 2;

fn kind_of(word: &str) -> Result<Input, Failure<'_>>
    ensures { MatchResult result (λ input. word.now ≡ kind_word input) (NoKind word.now) }
{
    match word {
        "signal" => Ok(Input::Signal),
        "gain" => Ok(Input::Gain),
        _ => Err(Failure::UnknownKind(Shown(word))),
    }
}

// How often a chain is timed, at least once.
fn runs_of(word: &str) -> Result<u32, Failure<'_>>
    ensures { MatchResult result (SpellsRuns word.now) (NoRuns word.now) }
{
    u32::read(word)
        .filter(|runs| *runs > 0)
        .ok_or(Failure::WrongRuns(Shown(word)))
}

// The files of a chain and the word for its task.
fn chain_of<'a>(
    more: &'a [String],
    form: &'static str,
) -> Result<(Inputs<'a>, &'a str), Failure<'a>>
    ensures { MatchResult result
        (λ said. map string_bytes more.now ≡ chain_words said.0 said.1.now)
        (WrongLength (form_of form.now 3 4) (length more.now)) }
{
    let (signal, gain, word, settings) = match more {
        [signal, gain, word] => (signal, gain, word, None),
        [signal, gain, word, settings] => (signal, gain, word, Some(settings.as_str())),
        _ => return Err(Failure::WrongCount(form)),
    };
    let inputs = Inputs {
        signal: signal.as_str(),
        gain: gain.as_str(),
        settings,
    };
    Ok((inputs, word.as_str()))
}

// The command whose name is nearest, if one is near.
fn nearest(heap: Global, word: &str) -> Result<Option<&'static str>, AllocError>
    ensures { IfOk result (λ near. IfSome near (λ name. IsNear word.now name.now)) }
{
    let mut best = None;
    let mut fewest = NEAR + 1;
    for name in NAMES {
        let edits = levenshtein(heap, word, name)?;
        if edits < fewest {
            fewest = edits;
            best = Some(name);
        }
    }
    Ok(best)
}

// No command has the name.
fn unknown<'a>(heap: Global, name: &'a str) -> Failure<'a>
    ensures { Unknown name.now result }
{
    match nearest(heap, name) {
        Ok(Some(near)) => Failure::NearCommand(Shown(name), near),
        Ok(None) => Failure::UnknownCommand(Shown(name)),
        Err(_) => Failure::Memory,
    }
}

// The command that a flag says, which stands alone.
fn flagged<'a>(word: &str, more: &[String]) -> Option<Command<'a>>
    ensures { MatchOption result
        (IsNoFlag (word.now ∷ map string_bytes more.now))
        (Says (word.now ∷ map string_bytes more.now)) }
{
    match (word, more) {
        ("--help" | "-h", []) => Some(Command::Help),
        ("--version" | "-V", []) => Some(Command::Version),
        _ => None,
    }
}

// No word stands behind the name.
fn alone<'a>(more: &[String], form: &'static str) -> Result<(), Failure<'a>>
    ensures { MatchResult result
        (λ _. more.now ≡ [])
        (WrongLength (form_of form.now 0 0) (length more.now)) }
{
    if more.is_empty() {
        Ok(())
    } else {
        Err(Failure::WrongCount(form))
    }
}

// The command that the words behind `check` say; so do the next two for `copy` and `bench`.
fn check_of(more: &[String]) -> Result<Command<'_>, Failure<'_>>
    ensures { MatchResult result
        (Says (codes "check" ∷ map string_bytes more.now))
        (Complains (codes "check" ∷ map string_bytes more.now)) }
{
    match more {
        [kind, file] => Ok(Command::Check(kind_of(kind.as_str())?, file.as_str())),
        _ => Err(Failure::WrongCount("check signal|gain FILE")),
    }
}

fn copy_of(more: &[String]) -> Result<Command<'_>, Failure<'_>>
    ensures { MatchResult result
        (Says (codes "copy" ∷ map string_bytes more.now))
        (Complains (codes "copy" ∷ map string_bytes more.now)) }
{
    match more {
        [from, to] => Ok(Command::Copy(from.as_str(), to.as_str())),
        _ => Err(Failure::WrongCount("copy IN OUT")),
    }
}

fn bench_of(more: &[String]) -> Result<Command<'_>, Failure<'_>>
    ensures { MatchResult result
        (Says (codes "bench" ∷ map string_bytes more.now))
        (Complains (codes "bench" ∷ map string_bytes more.now)) }
{
    let (inputs, runs) = chain_of(more, "bench SIGNAL GAIN RUNS [SETTINGS]")?;
    Ok(Command::Chain(inputs, Task::Bench(runs_of(runs)?)))
}

/// The command that the words behind the program's own name say. Where no command has the name, the contract leaves open
/// which command is near enough to be meant, if one is.
pub fn parse(heap: Global, words: &[String]) -> Result<Command<'_>, Failure<'_>>
    ensures { MatchResult result
        (Says (map string_bytes words.now))
        (Complains (map string_bytes words.now)) }
{
    let Some((name, more)) = words.split_first() else {
        return Ok(Command::Demonstrate);
    };
    match name.as_str() {
        "help" => {
            alone(more, "help")?;
            Ok(Command::Help)
        }
        "version" => {
            alone(more, "version")?;
            Ok(Command::Version)
        }
        "check" => check_of(more),
        "copy" => copy_of(more),
        "play" => {
            let (inputs, out) = chain_of(more, "play SIGNAL GAIN OUT [SETTINGS]")?;
            Ok(Command::Chain(inputs, Task::Play(out)))
        }
        "replay" => {
            let (inputs, calls) = chain_of(more, "replay SIGNAL GAIN CALLS [SETTINGS]")?;
            Ok(Command::Chain(inputs, Task::Replay(calls)))
        }
        "bench" => bench_of(more),
        word => match flagged(word, more) {
            Some(command) => Ok(command),
            None => Err(unknown(heap, word)),
        },
    }
}
