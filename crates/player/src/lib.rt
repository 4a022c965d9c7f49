// The player: it plays one source, which may be any pile of stages.
//
// Proved, over every source that keeps its trait's contract: each call answers, leaves its buffer
// and goes on as the plain player does, which knows only the whole and a place (specs/Plain.antt).
// And the law of runs (specs/Runs.antt), for every list of calls with any arguments: what comes out
// at place k, counted from the answers, is item k of the whole; an end or a fault is reported
// exactly where the whole ends, and is the whole's own. `Player::new` promises the law for every
// run that its calls can make, and `run::run` for the answers that it hands back.
#![tactic(auto)]

pub mod calls;
pub mod fault;
pub mod player;
pub mod run;
