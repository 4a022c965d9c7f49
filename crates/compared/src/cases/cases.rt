// Cases that stand in tables, a line for each.
use crate::cases::opening;
use anyhow::{Context, anyhow, ensure};
use comparison::table::{Row, is_entry};
use comparison::tally::Tally;
use std::alloc::Global;
use std::{fs, io};

#[derive(Drop)]
pub(crate) struct Cases<'r> {
    rt: &'r HostRuntime,
    tally: Tally,
}

impl<'r> Cases<'r> {
    pub(crate) fn new(rt: &'r HostRuntime) -> Self {
        let tally = Tally::new();
        Cases { rt, tally }
    }

    // Compares the answer with what it should be, and prints a line.
    fn compare(&mut self, name: &str, expected: &str, answer: &str) -> io::Result<()> {
        let right = answer == expected;
        self.tally.count(right);
        if right {
            println!(self.rt; "  {name}: ok")
        } else {
            println!(self.rt; "  {name}: expected {expected}, got {answer}")
        }
    }

    // Compares every entry `name | what | of what | answer` of the file with what the function answers.
    pub(crate) fn table<F: Fn(Global, &str, &str) -> anyhow::Result<String> + Drop>(
        &mut self,
        file: &str,
        answer: F,
    ) -> anyhow::Result<()>
        requires { F.IsAlwaysCallable answer }
    {
        let text = fs::read_to_string(self.rt, file)?;
        println!(self.rt; "{file}")?;
        for line in text.lines().filter(|line| is_entry(line)) {
            let row = Row::of(line).context("a line of a table has four columns")?;
            let found = answer(self.rt.alloc(), row.what, row.of_what)?;
            self.compare(row.name, row.answer, found.as_str())?;
        }
        Ok(())
    }

    // A file that must not open: `file kind refusal place`.
    fn damaged_file(&mut self, line: &str) -> anyhow::Result<()> {
        let mut words = line.split_whitespace();
        let (Some(file), Some(kind), Some(number), Some(place)) = (
            words.next(),
            words.next(),
            words.next(),
            words.next(),
        ) else {
            return Err(anyhow!("a line of the damaged files has four words"));
        };
        let heap = self.rt.alloc();
        let bytes = fs::read(self.rt, file)?;
        let expected = format!(in heap; "refused {number} at byte {place}")?;
        let found = opening::opened(heap, kind, bytes.as_slice())?;
        Ok(self.compare(file, expected.as_str(), found.as_str())?)
    }

    pub(crate) fn damaged(&mut self, file: &str) -> anyhow::Result<()> {
        let text = fs::read_to_string(self.rt, file)?;
        println!(self.rt; "{file}")?;
        for line in text.lines().filter(|line| is_entry(line)) {
            self.damaged_file(line)?;
        }
        Ok(())
    }

    // The count of all cases; an error where one differs.
    // Each program counts something else, and says it in its own words.
    pub(crate) fn close(self) -> anyhow::Result<()> {
        let Cases { rt, tally } = self;
        let cases = tally.cases;
        let wrong = tally.wrong;
        println!(rt; "{cases} cases, {wrong} wrong")?;
        ensure!(wrong == 0, "a case has another answer than it should");
        Ok(())
    }
}
