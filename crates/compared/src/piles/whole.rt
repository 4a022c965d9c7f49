// What a pile hands out, and what a file says that it should.
use anyhow::{Context, ensure};
use comparison::ending::Ends;
use samples::sample::Sample;
use sources::source::Source;
use sources::whole::Whole;
use std::alloc::{AllocError, Global};
use std::str::FromStr;

// The parts of a sample of any kind.
#[derive(Clone, Copy, PartialEq, Eq, Debug)]
pub(crate) struct Parts {
    pub(crate) re: i32,
    pub(crate) im: i32,
}

impl FromStr for Parts {
    type Err = anyhow::Error;

    fn from_str(line: &str) -> anyhow::Result<Parts> {
        let (re, im) = line.split_once(' ').context("an item has two parts")?;
        Ok(Parts {
            re: re.parse::<i32>()?,
            im: im.parse::<i32>()?,
        })
    }
}

// The items, and the ending in words: `finished` or `fault 12 input 0 item 70`.
pub(crate) type Expected = Whole<Parts, String>;

// Reads a line that tells the pile in words, one as `81 items, sum 125, finished`, and then an item a line.
pub(crate) fn read(heap: Global, text: &str) -> anyhow::Result<Expected> {
    let mut lines = text.lines();
    let summary = lines
        .nth(1)
        .context("a file of a pile has two lines before its items")?;
    let (count, rest) = summary
        .split_once(" items, ")
        .context("a summary has the number of items")?;
    let (_, ending) = rest
        .split_once(", ")
        .context("a summary has the sum of the items and the ending")?;
    let items = lines
        .map(|line| line.parse::<Parts>())
        .try_collect::<Vec<Parts>>(heap)?;
    ensure!(
        count.parse::<usize>()? == items.len(),
        "a file of a pile has another number of items than it says"
    );
    let ending = String::from_str(heap, ending)?;
    Ok(Whole { items, ending })
}

// What the source hands out from where it stands.
pub(crate) fn played<S: Source>(heap: Global, source: &mut S) -> Result<Expected, AllocError>
where
    S::Item: Sample,
{
    let whole = Whole::of(heap, source)?;
    let items = whole
        .items
        .iter()
        .map(|item| Parts {
            re: item.re(),
            im: item.im(),
        })
        .collect::<Vec<Parts>>(heap)?;
    let ending = Ends(whole.ending).to_string(heap)?;
    Ok(Whole { items, ending })
}
