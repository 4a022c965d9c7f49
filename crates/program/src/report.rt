// What a run reports, where that is printed, and its status.
ghost use Rattle.std.specs.Prelude.{◌≡◌, ◌++◌, is_some, is_err, map};
ghost use Rattle.std.specs.Fmt.{WritesOnOk};
ghost use Rattle.player.specs.Calls.{answered};
ghost use Rattle.text.specs.Answers.{answer_lines, answer_text};
ghost use Rattle.program.specs.Reports.{checked_text, copied_text, first_ended_text, played_text, compared_text, timed_text, replayed_text, answered_lines, report_text, recording_ending};
ghost use Rattle.program.specs.Statuses.{status_of};

use crate::arguments::{USAGE, VERSION};
use crate::bench::Timed;
use crate::block::ChainEnding;
use crate::check::Contents;
use crate::copy::Copied;
use crate::failure::Failure;
use crate::host::Host;
use crate::inputs::Inputs;
use crate::play::Played;
use crate::printing::{ChainEnds, Ends, Files, Kind, Shown};
use crate::replay::{Compared, Difference, SIZES};
use player::calls::Answer;
use recordings::pair::Input;
use samples::kinds::ConverterSample;
use sources::fault::{AtItem, Ending};
use std::alloc::Global;
use std::{fmt, io};
use text::numbered::Numbered;
use text::transcript::answers::{AnswerLine, AnswerLines};
use text::transcript::step::Step;

/// What a command did. It is reported on the standard output.
#[derive(Drop)]
pub enum Report<'a> {
    /// The usage of every command.
    Usage,
    /// The name of the program, and the kit that it is proved with.
    Version,
    /// The usage, and what the demonstration shows.
    Demonstrated(String),
    /// A recording was opened and read.
    Checked(&'a str, Input, Contents),
    /// A signal recording was copied; its file, and how it ended.
    Copied(&'a str, Copied<'a>),
    /// A chain was played and written.
    Played(Inputs<'a>, Played<'a>),
    /// Calls were made, and block sizes compared, if there was memory for that.
    Replayed(Vec<Numbered<Step>>, Vec<Answer<ConverterSample>>, Option<Compared>),
    /// A chain was played and timed.
    Timed(Inputs<'a>, Timed),
}

fn fmt_checked<W: fmt::Write>(
    f: &mut fmt::Formatter<W>,
    file: &str,
    input: Input,
    contents: &Contents,
) -> fmt::Result
    ensures { WritesOnOk W.write_str_gives f.old result
        (checked_text file.now input contents.now) f.new }
{
    let file = Shown(file);
    let kind = Kind(input);
    let rate = contents.rate;
    let items = contents.counted.items;
    let ends = Ends(contents.counted.ending);
    write!(
        f,
        "{file}: {kind} recording, rate {rate}, {items} samples, {ends}"
    )
}

// How the recording ends that a chain was played from alone.
fn recording_ending(ending: &ChainEnding) -> Ending
    ensures { result ≡ recording_ending ending.now }
{
    match ending {
        Ok(()) => Ok(()),
        Err(met) => Err(met.fault),
    }
}

fn fmt_copied<W: fmt::Write>(f: &mut fmt::Formatter<W>, copied: &Copied<'_>) -> fmt::Result
    ensures { WritesOnOk W.write_str_gives f.old result (copied_text copied.now) f.new }
{
    let files = Files {
        to: copied.to,
        last: copied.last.as_str(),
        rate: copied.rate,
        files: copied.written.files,
    };
    let samples = copied.written.samples;
    let ends = Ends(recording_ending(&copied.written.ending));
    writeln!(f, "{files}")?;
    write!(f, "copied {samples} samples, {ends}")
}

fn fmt_first_ended<W: fmt::Write>(f: &mut fmt::Formatter<W>, first: Option<Input>) -> fmt::Result
    ensures { WritesOnOk W.write_str_gives f.old result (first_ended_text first) f.new }
{
    match first {
        Some(Input::Signal) => {
            writeln!(
                f,
                "the signal ended first; the gain recording has more samples"
            )
        }
        Some(Input::Gain) => {
            writeln!(
                f,
                "the gain recording ended first; the signal has more samples"
            )
        }
        None => Ok(()),
    }
}

fn fmt_played<W: fmt::Write>(f: &mut fmt::Formatter<W>, played: &Played<'_>) -> fmt::Result
    ensures { WritesOnOk W.write_str_gives f.old result (played_text played.now) f.new }
{
    let files = Files {
        to: played.to,
        last: played.last.as_str(),
        rate: played.rate,
        files: played.written.files,
    };
    let highest = played.written.levels.highest;
    let clipped = played.written.levels.clipped;
    let samples = played.written.samples;
    let ends = ChainEnds(played.written.ending);
    writeln!(f, "{files}")?;
    writeln!(
        f,
        "highest level {highest} of 2048, {clipped} samples clipped at the converter"
    )?;
    fmt_first_ended(f, played.first_ended)?;
    write!(f, "played {samples} samples, {ends}")
}

fn fmt_compared<W: fmt::Write>(f: &mut fmt::Formatter<W>, compared: &Compared) -> fmt::Result
    ensures { WritesOnOk W.write_str_gives f.old result (compared_text compared.now) f.new }
{
    let [first, second, third] = SIZES;
    let items = compared.items;
    match compared.difference {
        None => write!(
            f,
            "blocks of {first}, {second} and {third}: {items} items, alike"
        ),
        Some(Difference { size, place }) => {
            write!(
                f,
                "blocks of {first} and of {size}: they differ at place {place}"
            )
        }
    }
}

// Tenths of a nanosecond are cut off, not rounded.
fn fmt_timed<W: fmt::Write>(f: &mut fmt::Formatter<W>, timed: &Timed) -> fmt::Result
    ensures { WritesOnOk W.write_str_gives f.old result (timed_text timed.now) f.new }
{
    let items = timed.items;
    let sum = timed.sum;
    let tenths = timed.time.as_nanos().saturating_mul(10) / u128::from(items.max(1));
    let whole = tenths / 10;
    let tenth = tenths % 10;
    write!(
        f,
        "bench: {items} items, {whole}.{tenth} ns per item, sum {sum}"
    )
}

fn fmt_replayed<W: fmt::Write>(
    f: &mut fmt::Formatter<W>,
    steps: &[Numbered<Step>],
    answers: &[Answer<ConverterSample>],
    compared: &Compared,
) -> fmt::Result
    ensures { WritesOnOk W.write_str_gives f.old result
        (replayed_text steps.now answers.now compared.now) f.new }
{
    let lines = AnswerLines { steps, answers };
    write!(f, "{lines}")?;
    fmt_compared(f, compared)
}

// These lines, and one more without its end.
fn fmt_lines<W: fmt::Write>(
    f: &mut fmt::Formatter<W>,
    lines: AnswerLines<'_>,
    last: AnswerLine<'_>,
) -> fmt::Result
    ensures { WritesOnOk W.write_str_gives f.old result
        (answer_lines lines.entry.steps.now (map answered lines.entry.answers.now)
        ++ answer_text last.entry.step (answered last.entry.answer.now)) f.new }
{
    write!(f, "{lines}")?;
    write!(f, "{last}")
}

// The lines of the answers, without the end of the last one.
fn fmt_answered<W: fmt::Write>(
    f: &mut fmt::Formatter<W>,
    steps: &[Numbered<Step>],
    answers: &[Answer<ConverterSample>],
) -> fmt::Result
    ensures { WritesOnOk W.write_str_gives f.old result
        (answered_lines steps.now answers.now) f.new }
{
    let count = steps.len().min(answers.len());
    if count == 0 {
        return Ok(());
    }
    let last = count - 1;
    let lines = AnswerLines {
        steps: &steps[..last],
        answers: &answers[..last],
    };
    let line = AnswerLine {
        step: steps[last].held,
        answer: &answers[last],
    };
    fmt_lines(f, lines, line)
}

impl<'a> fmt::Display for Report<'a> {
    ghost output = { λ report. report_text report };

    fn fmt<W: fmt::Write>(&self, f: &mut fmt::Formatter<W>) -> fmt::Result {
        match self {
            Report::Usage => write!(f, "{USAGE}"),
            Report::Version => write!(f, "{VERSION}"),
            Report::Demonstrated(text) => {
                let shown = text.trim_end();
                write!(f, "{USAGE}\n\n{shown}")
            }
            Report::Checked(file, input, contents) => fmt_checked(f, *file, *input, contents),
            Report::Copied(_, copied) => fmt_copied(f, copied),
            Report::Played(_, played) => fmt_played(f, played),
            Report::Replayed(steps, answers, Some(compared)) => {
                fmt_replayed(f, steps.as_slice(), answers.as_slice(), compared)
            }
            Report::Replayed(steps, answers, None) => {
                fmt_answered(f, steps.as_slice(), answers.as_slice())
            }
            Report::Timed(_, timed) => fmt_timed(f, timed),
        }
    }
}

// The fault that a chain ended in, with its file.
fn fault_of<'a>(inputs: &Inputs<'a>, ending: &ChainEnding) -> Option<Failure<'a>>
    ensures { is_some result ≡ is_err ending.now }
{
    match ending {
        Ok(()) => None,
        Err(met) => {
            let file = inputs.file_numbered(met.fault.input);
            Some(Failure::Faulted(file, AtItem(met.fault)))
        }
    }
}

impl<'a> Report<'a> {
    ghost use Rattle.std.specs.Prelude.{◌≡◌, is_some};
    ghost use Rattle.program.specs.Statuses.{stops};

    /// Why the run stops with status 1, though it did what it reports: a fault, a difference, or too little memory to
    /// compare block sizes. A fault is an answer at `check` and at `replay`.
    pub fn failure(&self) -> Option<Failure<'a>>
        ensures { is_some result ≡ stops self.now }
    {
        match self {
            Report::Copied(from, copied) => match copied.written.ending {
                Ok(()) => None,
                Err(met) => Some(Failure::Faulted(*from, AtItem(met.fault))),
            },
            Report::Played(inputs, played) => fault_of(inputs, &played.written.ending),
            Report::Timed(inputs, timed) => fault_of(inputs, &timed.ending),
            Report::Replayed(_, _, Some(compared)) => match compared.difference {
                None => None,
                Some(_) => Some(Failure::BlocksDiffer),
            },
            Report::Replayed(_, _, None) => Some(Failure::Memory),
            _ => None,
        }
    }
}

/// What came of a run: its report, or why it stopped before.
pub type Outcome<'a> = Result<Report<'a>, Failure<'a>>;

/// The status that a run ends with: 0, or 1 where it stopped, met a fault, found a difference, or had no memory to compare
/// block sizes.
pub fn status(outcome: &Outcome<'_>) -> u8
    ensures { result ≡ status_of outcome.now }
{
    match outcome {
        Ok(report) => u8::from(report.failure().is_some()),
        Err(_) => 1,
    }
}

// An answer about a file goes to the output, any other failure to the errors.
fn print_failure<H: Host>(heap: Global, host: &H, failure: &Failure<'_>) -> io::Result<()> {
    let line = failure.line(heap)?;
    if failure.is_answer() {
        host.print(&line)
    } else {
        host.complain(line.as_str())
    }
}

/// Prints the report, and why the run stopped, if it did: an answer about a file to the output, any other failure to the
/// errors.
pub fn print<H: Host>(heap: Global, host: &H, outcome: &Outcome<'_>) -> io::Result<()> {
    match outcome {
        Ok(report) => {
            host.print(report)?;
            match report.failure() {
                Some(failure) => print_failure(heap, host, &failure),
                None => Ok(()),
            }
        }
        Err(failure) => print_failure(heap, host, failure),
    }
}
