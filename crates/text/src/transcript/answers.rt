// What a player answered, in text.
ghost use Rattle.std.specs.Prelude.{Some, map};
ghost use Rattle.std.specs.Fmt.{WritesOnOk};
ghost use Rattle.player.specs.Calls.{answered};
ghost use Rattle.text.specs.Answers.{answer_lines, answer_text, filled_text, item_text};

use crate::numbered::Numbered;
use crate::transcript::step::Step;
use player::calls::Answer;
use samples::kinds::ConverterSample;
use std::fmt;

/// A step and its answer, said in one line: `next: item -95 53`, `next: no item`,
/// `fill 3: 3; 1 2; 3 4; 5 6`, `skip 9: fault 12 input 0 item 250 place 251` or `rewind: done`.
#[derive(Clone, Copy)]
pub struct AnswerLine<'a> {
    /// The step.
    pub step: Step,
    /// What it was answered.
    pub answer: &'a Answer<ConverterSample>,
}

fn write_item<W: fmt::Write>(
    f: &mut fmt::Formatter<W>,
    item: &Option<ConverterSample>,
) -> fmt::Result
    ensures { WritesOnOk W.write_str_gives f.old result (item_text item.now) f.new }
{
    match item {
        Some(sample) => {
            let re = sample.re;
            let im = sample.im;
            write!(f, "item {re} {im}")
        }
        None => write!(f, "no item"),
    }
}

// How many samples were placed, then each of them.
fn write_filled<W: fmt::Write>(
    f: &mut fmt::Formatter<W>,
    count: usize,
    buffer: &[ConverterSample],
) -> fmt::Result
    ensures { WritesOnOk W.write_str_gives f.old result (filled_text count buffer.now) f.new }
{
    write!(f, "{count}")?;
    for sample in buffer.iter().take(count) {
        let re = sample.re;
        let im = sample.im;
        write!(f, "; {re} {im}")?;
    }
    Ok(())
}

impl<'a> fmt::Display for AnswerLine<'a> {
    ghost output = { λ line. Some (answer_text line.step (answered line.answer.now)) };

    fn fmt<W: fmt::Write>(&self, f: &mut fmt::Formatter<W>) -> fmt::Result {
        let step = self.step;
        write!(f, "{step}: ")?;
        match self.answer {
            Answer::Item(Ok(item)) => write_item(f, item),
            Answer::Filled(Ok(count), buffer) => write_filled(f, *count, buffer.as_slice()),
            Answer::Skipped(Ok(count)) => write!(f, "{count}"),
            Answer::Rewound => write!(f, "done"),
            Answer::Item(Err(fault))
            | Answer::Filled(Err(fault), _)
            | Answer::Skipped(Err(fault)) => write!(f, "{fault}"),
        }
    }
}

/// Steps with their answers, each in a line of its own, as many as both lists have.
#[derive(Clone, Copy)]
pub struct AnswerLines<'a> {
    /// Two lists: a run takes all calls, then gives all answers.
    pub steps: &'a [Numbered<Step>],
    /// An answer for each step.
    pub answers: &'a [Answer<ConverterSample>],
}

impl<'a> fmt::Display for AnswerLines<'a> {
    ghost output = { λ all. Some (answer_lines all.steps.now (map answered all.answers.now)) };

    fn fmt<W: fmt::Write>(&self, f: &mut fmt::Formatter<W>) -> fmt::Result {
        for (step, answer) in self.steps.iter().zip(self.answers) {
            let line = AnswerLine {
                step: step.held,
                answer,
            };
            writeln!(f, "{line}")?;
        }
        Ok(())
    }
}
