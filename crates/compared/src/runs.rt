// Compares runs of a player with what they should answer: worked runs of a table, and random runs, lists of calls over random
// piles, answer by answer and buffer by buffer, with a plain player that knows only the whole and a place.
//
// The whole is taken item by item from a second pile that was made the same way. Prints how many runs and calls were
// compared, and how many runs were wrong.
mod inputs;
mod piles;
mod plain;
mod playing;
mod random;
mod trial;

use crate::runs::random::Random;
use crate::runs::trial::Trials;

pub(crate) fn run(rt: &HostRuntime) -> anyhow::Result<()> {
    playing::compare(rt, "plays.txt")?;
    let mut trials = Trials::new(rt, Random::new(2026));
    trials.over(
        "echoes",
        |inputs, trial| trial.compare(inputs.echoes(), inputs.echoes()),
    )?;
    trials.over(
        "turns",
        |inputs, trial| trial.compare(inputs.turns(), inputs.turns()),
    )?;
    trials.over(
        "noise",
        |inputs, trial| trial.compare(inputs.noisy(), inputs.noisy()),
    )?;
    trials.over(
        "gains",
        |inputs, trial| trial.compare(inputs.gained(), inputs.gained()),
    )?;
    trials.over(
        "chain",
        |inputs, trial| trial.compare(inputs.chain(), inputs.chain()),
    )?;
    trials.close()
}
