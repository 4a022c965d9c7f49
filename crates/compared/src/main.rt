// Compares what the libraries do with what it should be, and prints a line for each case: recordings opened and written, piles
// of stages in other orders than the standard chain's, runs of a player, and runs of the standard chain over recordings.
#![tactic(auto)]

mod cases;
mod chains;
mod piles;
mod runs;

fn run(rt: &HostRuntime) -> anyhow::Result<()> {
    cases::run(rt)?;
    piles::run(rt)?;
    runs::run(rt)?;
    chains::run(rt)
}

fn main(rt: HostRuntime) -> anyhow::Result<()> {
    run(&rt)
}
