// Compares worked cases of recordings with what they should answer, and prints a line for each.
//
// The cases stand in tables beside the program, with answers that were worked out by hand or by an independent model.
mod builder;
mod cases;
mod opening;
mod rewriting;
mod showing;
mod writing;

use crate::cases::cases::Cases;

pub(crate) fn run(rt: &HostRuntime) -> anyhow::Result<()> {
    let mut cases = Cases::new(rt);
    cases.table("openings.txt", opening::answer)?;
    cases.table("writings.txt", writing::answer)?;
    cases.table("rewritings.txt", rewriting::answer)?;
    cases.damaged("expected.txt")?;
    cases.close()
}
