// Worked runs of a player over gain indices: its answers to a list of calls, as `item 10; 3 [ 11 12 13 ]; no item`. Of a fill,
// the whole buffer is shown after the count.
use anyhow::{Context, anyhow, bail};
use comparison::table::{Row, is_entry};
use player::calls::{Answer, Call};
use player::fault::PlayerFault;
use player::run::run;
use recordings::pair::Input;
use samples::gain_index::GainIndex;
use sources::fault::{Ending, Fault, FaultKind};
use sources::listed::Listed;
use sources::whole::Whole;
use stages::worked::worked_examples;
use std::alloc::Global;
use std::fmt::Write;
use std::{fmt, fs};

// What a buffer holds everywhere before it is filled.
const UNTOUCHED: i64 = 99;

fn call(heap: Global, word: &str) -> anyhow::Result<Call<GainIndex>> {
    match word.split_once(' ') {
        Some(("fill", size)) => {
            let size = size.parse::<usize>()?;
            Ok(Call::Fill(vec![in heap; GainIndex::new(UNTOUCHED); size]?))
        }
        Some(("skip", n)) => Ok(Call::Skip(n.parse::<u32>()?)),
        Some(_) => Err(anyhow!("a call with a number is fill or skip")),
        None => match word {
            "next" => Ok(Call::Next),
            "rewind" => Ok(Call::Rewind),
            _ => Err(anyhow!("a call is next, fill, skip or rewind")),
        },
    }
}

// How many items a call moved on by, or its fault.
#[derive(Clone, Copy)]
struct Count<N>(Result<N, PlayerFault>);

impl<N: fmt::Display> fmt::Display for Count<N> {
    fn fmt<W: fmt::Write>(&self, f: &mut fmt::Formatter<W>) -> fmt::Result {
        match &self.0 {
            Ok(n) => write!(f, "{n}"),
            Err(fault) => write!(f, "{fault}"),
        }
    }
}

// Added to the text, as an answer is built of several.
fn show_answer(answer: Answer<GainIndex>, text: &mut String) -> anyhow::Result<()> {
    match answer {
        Answer::Item(Ok(Some(item))) => {
            let index = item.index;
            Ok(write!(text, "item {index}")?)
        }
        Answer::Item(Ok(None)) => Ok(text.push_str("no item")?),
        Answer::Item(Err(fault)) => Ok(write!(text, "{fault}")?),
        Answer::Filled(count, buffer) => {
            let count = Count(count);
            write!(text, "{count} [")?;
            for item in buffer.iter() {
                let index = item.index;
                write!(text, " {index}")?;
            }
            Ok(text.push_str(" ]")?)
        }
        Answer::Skipped(count) => {
            let count = Count(count);
            Ok(write!(text, "{count}")?)
        }
        Answer::Rewound => Ok(text.push_str("rewound")?),
    }
}

fn show_answers(heap: Global, answers: Vec<Answer<GainIndex>>) -> anyhow::Result<String> {
    let mut text = String::new(heap);
    for answer in answers {
        if !text.is_empty() {
            text.push_str("; ")?;
        }
        show_answer(answer, &mut text)?;
    }
    Ok(text)
}

// The items that the words name; the word `fault` behind them stands for one.
fn whole(heap: Global, words: &str) -> anyhow::Result<Whole<GainIndex, Ending>> {
    let faulted = words.strip_suffix("fault");
    let items = faulted
        .unwrap_or(words)
        .split_whitespace()
        .map(|word| -> anyhow::Result<GainIndex> { Ok(GainIndex::new(word.parse::<i64>()?)) })
        .try_collect::<Vec<GainIndex>>(heap)?;
    let ending = match faulted {
        Some(_) => Err(Fault {
            kind: FaultKind::GainOver,
            input: Input::Gain.number(),
            item: items.len() as u64,
        }),
        None => Ok(()),
    };
    Ok(Whole { items, ending })
}

// What the calls, which are parted by commas, answer over the items that the words name.
fn answer(heap: Global, calls: &str, words: &str) -> anyhow::Result<String> {
    let whole = whole(heap, words)?;
    let listed = Listed::new(whole.items.as_slice(), whole.ending);
    let calls = calls
        .split(',')
        .map(|word| call(heap, word.trim()))
        .try_collect::<Vec<Call<GainIndex>>>(heap)?;
    show_answers(heap, run(heap, listed, calls)?)
}

// Compares the run on a line, and prints it; an error where an answer differs.
fn compare_line(rt: &HostRuntime, line: &str) -> anyhow::Result<()> {
    let row = Row::of(line).context("a line of a table has four columns")?;
    let name = row.name;
    let found = answer(rt.alloc(), row.what, row.of_what)?;
    if found.as_str() != row.answer {
        println!(rt; "{name}: got {found}")?;
        bail!("a worked run has another answer than it should");
    }
    println!(rt; "{name}: ok")?;
    Ok(())
}

// The examples that are proved, of which the first is shown as the stage computes it; then every run of the table in the
// file.
pub(crate) fn compare(rt: &HostRuntime, file: &str) -> anyhow::Result<()> {
    let scaled = worked_examples().re;
    println!(rt; "worked examples: proved; 100 scaled by 4096 gives {scaled}")?;
    let text = fs::read_to_string(rt, file)?;
    for line in text.lines().filter(|line| is_entry(line)) {
        compare_line(rt, line)?;
    }
    Ok(())
}
