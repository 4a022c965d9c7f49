// Piles, each compared with the file of its name.
use crate::piles::whole::{Expected, played, read};
use anyhow::ensure;
use comparison::tally::Tally;
use samples::sample::Sample;
use sources::source::Source;
use std::alloc::Global;
use std::fmt::Write;
use std::{fs, io};

// How many items are taken before the second rewind, so that it finds every stage in the middle.
const TAKEN: u32 = 7;

// In words, where what was played first differs from what was expected.
fn difference(
    heap: Global,
    expected: &Expected,
    played: &Expected,
    when: &str,
) -> anyhow::Result<Option<String>> {
    let Some(place) = expected.first_difference(played) else {
        return Ok(None);
    };
    let mut words = format!(in heap; "{when}, place {place} has ")?;
    match played.items.get(place) {
        Some(item) => {
            let re = item.re;
            let im = item.im;
            write!(words, "{re} {im}")?;
        }
        None => words.push_str(played.ending.as_str())?,
    }
    Ok(Some(words))
}

// Plays the pile as it was made, asks for more at its end, and plays it again after a rewind from its middle.
fn play<S: Source>(
    heap: Global,
    expected: &Expected,
    pile: &mut S,
) -> anyhow::Result<Option<String>>
where
    S::Item: Sample,
{
    let first = played(heap, pile)?;
    if let Some(words) = difference(heap, expected, &first, "at first")? {
        return Ok(Some(words));
    }
    let more = played(heap, pile)?;
    if !more.items.is_empty() || more.ending != expected.ending {
        return Ok(Some(String::from_str(heap, "the ending does not stay")?));
    }
    pile.rewind();
    for _ in 0..TAKEN {
        let _ = pile.next();
    }
    pile.rewind();
    let again = played(heap, pile)?;
    difference(heap, expected, &again, "after a rewind")
}

#[derive(Drop)]
pub(crate) struct Piles<'r> {
    rt: &'r HostRuntime,
    tally: Tally,
}

impl<'r> Piles<'r> {
    pub(crate) fn new(rt: &'r HostRuntime) -> Self {
        let tally = Tally::new();
        Piles { rt, tally }
    }

    // The allocator for what a pile is made of.
    pub(crate) fn heap(&self) -> Global {
        self.rt.alloc()
    }

    // Prints a line for a pile: what came out, and where it first differs from what should.
    fn report(
        &self,
        name: &str,
        expected: &Expected,
        difference: Option<String>,
    ) -> io::Result<()> {
        let count = expected.items.len();
        let ending = &expected.ending;
        match difference {
            None => println!(self.rt; "{name}: {count} items, {ending}: ok"),
            Some(words) => {
                println!(self.rt; "{name}: expected {count} items, {ending}: {words}")
            }
        }
    }

    // Compares a pile with the file of its name.
    pub(crate) fn compare<S: Source + Drop>(
        &mut self,
        name: &str,
        mut pile: S,
    ) -> anyhow::Result<()>
    where
        S::Item: Sample,
    {
        let heap = self.heap();
        let file = format!(in heap; "{name}.txt")?;
        let text = fs::read_to_string(self.rt, file.as_str())?;
        let expected = read(heap, text.as_str())?;
        let difference = play(heap, &expected, &mut pile)?;
        self.tally.count(difference.is_none());
        Ok(self.report(name, &expected, difference)?)
    }

    // The count of all piles; an error where one differs.
    // Each program counts something else, and says it in its own words.
    pub(crate) fn close(self) -> anyhow::Result<()> {
        let Piles { rt, tally } = self;
        let piles = tally.cases;
        let wrong = tally.wrong;
        println!(rt; "{piles} piles, {wrong} wrong")?;
        ensure!(wrong == 0, "a pile hands out something else than it should");
        Ok(())
    }
}
