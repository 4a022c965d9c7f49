// Files of calls: `next`, `fill N`, `skip N` or `rewind`, one a line.
ghost use Rattle.std.specs.Prelude.{◌≡◌, ◌<◌, length, map, IfOk, IfErr, Some};
ghost use Rattle.player.specs.Calls.{asked};
ghost use Rattle.text.specs.Answers.{step_text};
ghost use Rattle.text.specs.Steps.{call_of, asked_by, TakesMemory, Says, Complains};

use crate::entries::Form;
use crate::entry::Entry;
use crate::fault::Wrong;
use crate::numbered::Numbered;
use player::calls::Call;
use samples::kinds::ConverterSample;
use samples::sample::Sample;
use std::alloc::{AllocError, Global};
use std::fmt;

/// A call of a player, as a line of a file of calls says it.
#[derive(Clone, Copy)]
pub enum Step {
    /// The next item.
    Next,
    /// How many items are wanted.
    Fill(u32),
    /// How many items are passed over.
    Skip(u32),
    /// Back to the start.
    Rewind,
}

impl Step {
    /// The player's call. A fill brings a buffer of zeros, for which there can be too little memory
    /// unless it wants no items; any other call is made whatever memory there is.
    pub fn call(self, heap: Global) -> Result<Call<ConverterSample>, AllocError>
        ensures call { IfOk result (λ call. asked call ≡ call_of self) }
        ensures memory { IfErr result (λ _. TakesMemory self) }
    {
        match self {
            Step::Next => Ok(Call::Next),
            Step::Fill(wanted) => {
                let silence = ConverterSample::new(0, 0);
                let mut buffer = Vec::new(heap);
                buffer.resize(wanted as usize, silence)?;
                Ok(Call::Fill(buffer))
            }
            Step::Skip(wanted) => Ok(Call::Skip(wanted)),
            Step::Rewind => Ok(Call::Rewind),
        }
    }
}

/// The calls that the steps stand for, in order. Memory is taken to keep them: no steps make no
/// calls, whatever memory there is.
pub fn calls_of(
    heap: Global,
    steps: &[Numbered<Step>],
) -> Result<Vec<Call<ConverterSample>>, AllocError>
    ensures calls { IfOk result (λ calls. map asked calls.items ≡ asked_by steps.now) }
    ensures memory { IfErr result (λ _. 0 < length steps.now) }
{
    let mut calls = Vec::new(heap);
    for step in steps {
        calls.push(step.held.call(heap)?)?;
    }
    Ok(calls)
}

impl Form for Step {
    ghost Says = { Says };

    ghost Complains = { Complains };

    fn read(word: &str, line: Entry<'_>) -> Result<Step, Wrong> {
        match word {
            "next" => line.form("next").end().map(|()| Step::Next),
            "fill" => line.form("fill N").row().map(|(n,)| Step::Fill(n)),
            "skip" => line.form("skip N").row().map(|(n,)| Step::Skip(n)),
            "rewind" => line.form("rewind").end().map(|()| Step::Rewind),
            _ => Err(line.unknown(word, "call")),
        }
    }
}

/// As the line that it was read from.
impl fmt::Display for Step {
    ghost output = { λ step. Some (step_text step) };

    fn fmt<W: fmt::Write>(&self, f: &mut fmt::Formatter<W>) -> fmt::Result {
        match self {
            Step::Next => write!(f, "next"),
            Step::Fill(n) => write!(f, "fill {n}"),
            Step::Skip(n) => write!(f, "skip {n}"),
            Step::Rewind => write!(f, "rewind"),
        }
    }
}
