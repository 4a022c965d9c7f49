// The standard player: a player over the standard chain, made from settings, a signal and its gain indices.
//
// Proved: it plays the whole that the formulas define from the settings and the two wholes, and the law of runs holds of
// it in those words alone.
ghost use Rattle.std.specs.Prelude.{◌≡◌, ◌≢◌, [], IfOk, OnErr};
ghost use Rattle.chain.specs.Chains.{played};
ghost use Rattle.player.specs.Runs.{EveryRunLawful};
ghost use Rattle.player.specs.Standing.{Stands};
ghost use Rattle.chain.specs.Runs.{StandardRun};

use crate::standard::{StandardChain, standard_chain};
use player::calls::{Answer, Call};
use player::player::Player;
use player::run::run;
use samples::gain_index::GainIndex;
use samples::kinds::ConverterSample;
use settings::settings::Settings;
use sources::source::Source;
use std::alloc::{AllocError, Global};

/// A player at the start of the standard chain. Whatever calls are then made of it, in any order and with any arguments: what
/// comes out at place k is item k of the whole that the formulas make of the settings, the signal and its gain indices, and
/// that whole's end or fault is reported exactly where items are wanted and none is left.
pub fn standard_player<S: Source<Item = ConverterSample>, G: Source<Item = GainIndex>>(
    settings: &Settings,
    signal: S,
    indices: G,
) -> Player<StandardChain<S, G>>
    ensures stands { Stands result (played settings.now (S.whole signal) (G.whole indices)) 0 }
    ensures runs { EveryRunLawful result (played settings.now (S.whole signal) (G.whole indices)) }
{
    let start = standard_chain(settings, signal, indices);
    Player::new(start)
}

/// Carries out the calls on a player of the standard chain, and hands back each answer with each buffer. Out of memory is
/// reported only where there are calls.
pub fn standard_run<S: Source<Item = ConverterSample> + Drop, G: Source<Item = GainIndex> + Drop>(
    heap: Global,
    settings: &Settings,
    signal: S,
    indices: G,
    calls: Vec<Call<ConverterSample>>,
) -> Result<Vec<Answer<ConverterSample>>, AllocError>
    ensures law { IfOk result (StandardRun settings.now (S.whole signal) (G.whole indices) calls) }
    ensures memory { OnErr result (calls.items ≢ []) }
{
    let chain = standard_chain(settings, signal, indices);
    run(heap, chain, calls)
}
