// Plays runs of the standard chain over recordings, and compares what comes out, and what each call of a player answers,
// with what an independent model worked out. Prints a line for each run.
//
// What comes out is recorded and compared byte for byte; the answers are compared line by line.
mod one_run;

use crate::chains::one_run::Run;
use anyhow::ensure;
use comparison::table::is_entry;
use comparison::tally::Tally;
use std::fs;

// Compares the run of this name with its files, and prints a line; answers whether it gives what it should.
fn compare(rt: &HostRuntime, name: &str, expected: &str) -> anyhow::Result<bool> {
    let outcome = Run::read(rt, name)?.outcome()?;
    let right = outcome.as_str() == expected;
    if right {
        println!(rt; "{name}: {expected}: ok")?;
    } else {
        println!(rt; "{name}: expected {expected}, got {outcome}")?;
    }
    Ok(right)
}

pub(crate) fn run(rt: &HostRuntime) -> anyhow::Result<()> {
    let text = fs::read_to_string(rt, "runs.txt")?;
    let mut tally = Tally::new();
    for line in text.lines().filter(|line| is_entry(line)) {
        if let Some((name, expected)) = line.split_once(" | ") {
            tally.count(compare(rt, name, expected)?);
        }
    }
    let runs = tally.cases;
    let wrong = tally.wrong;
    println!(rt; "{runs} runs, {wrong} wrong")?;
    ensure!(
        wrong == 0,
        "a run of the standard chain gives something else than it should"
    );
    Ok(())
}
