// The command `replay`: calls on one player over the standard chain, and the chain in blocks of several sizes.
ghost use Rattle.std.specs.Prelude.{◌≡◌, ◌<◌, length, map, IfOk, None};
ghost use Rattle.chain.specs.Chains.{played};
ghost use Rattle.player.specs.Calls.{answered};
ghost use Rattle.player.specs.Plain.{plain_run};
ghost use Rattle.text.specs.Steps.{asked_by};
ghost use Rattle.program.specs.Comparing.{PlayedWhole, alike, difference_at};

use crate::block::{Block, ChainEnding, copies, next_block};
use chain::playing::{standard_player, standard_run};
use player::calls::Answer;
use player::player::Player;
use samples::gain_index::GainIndex;
use samples::kinds::ConverterSample;
use samples::sample::Sample;
use settings::settings::Settings;
use sources::source::Source;
use sources::whole::Whole;
use std::alloc::{AllocError, Global};
use text::numbered::Numbered;
use text::transcript::step::{Step, calls_of};

/// Makes the calls of the steps on one player over the chain, and answers each.
pub fn replay_steps<S: Source<Item = ConverterSample> + Drop, G: Source<Item = GainIndex> + Drop>(
    heap: Global,
    settings: &Settings,
    signal: S,
    gain: G,
    steps: &[Numbered<Step>],
) -> Result<Vec<Answer<ConverterSample>>, AllocError>
    ensures { IfOk result (λ answers. map answered answers.items
        ≡ plain_run (played settings.now (S.whole signal) (G.whole gain)) 0 (asked_by steps.now)) }
{
    let calls = calls_of(heap, steps)?;
    standard_run(heap, settings, signal, gain, calls)
}

/// The block sizes, in items.
pub const SIZES: [usize; 3] = [1, 61, 4096];

/// How two block sizes differ: the second size, and the first place at which other samples come out.
#[derive(Clone, Copy, PartialEq, Eq, Debug)]
pub struct Difference {
    /// How many samples a block of the second size has.
    pub size: usize,
    /// The first place that differs, from 0.
    pub place: usize,
}

/// What came of the comparison: how many items the chain has, and the first difference, if there is one.
#[derive(Clone, Copy, PartialEq, Eq, Debug)]
pub struct Compared {
    /// How many samples the chain has.
    pub items: usize,
    /// None where all sizes gave the same samples and ending.
    pub difference: Option<Difference>,
}

// Plays from the start.
fn play_whole<S: Source<Item = ConverterSample>>(
    heap: Global,
    player: &mut Player<S>,
    block: &mut [ConverterSample],
) -> Result<Whole<ConverterSample, ChainEnding>, AllocError>
    requires { 0 < length block.old }
    ensures all { IfOk result (PlayedWhole player.old.whole) }
    ensures whole { player.new.whole ≡ player.old.whole }
{
    let mut items = Vec::new(heap);
    player.rewind();
    loop {
        let Block { count, ending } = next_block(player, block);
        if let Some(ending) = ending {
            return Ok(Whole { items, ending });
        }
        items.extend_from_slice(&block[..count])?;
    }
}

// Plays in blocks of this size.
fn play_in<S: Source<Item = ConverterSample>>(
    heap: Global,
    player: &mut Player<S>,
    size: usize,
) -> Result<Whole<ConverterSample, ChainEnding>, AllocError>
    requires { 0 < size }
    ensures all { IfOk result (PlayedWhole player.old.whole) }
    ensures whole { player.new.whole ≡ player.old.whole }
{
    let mut block = copies(heap, ConverterSample::new(0, 0), size)?;
    play_whole(heap, player, block.as_mut_slice())
}

/// Where what came in blocks of another size first differs from the whole.
pub fn difference_at<T: Eq, E: Eq>(
    size: usize,
    whole: &Whole<T, E>,
    again: &Whole<T, E>,
) -> Option<Difference>
    ensures place { result ≡ difference_at T.eq E.eq size whole.now again.now }
    ensures alike { whole.now.items.items ≡ again.now.items.items
        → whole.now.ending ≡ again.now.ending → result ≡ None }
{
    let place = whole.first_difference(again)?;
    Some(Difference { size, place })
}

/// Plays the player's whole from its start in blocks of each size, and compares what comes out, its ending too.
pub fn compare_player<S: Source<Item = ConverterSample> + Drop>(
    heap: Global,
    mut player: Player<S>,
) -> Result<Compared, AllocError>
    ensures { IfOk result (λ compared. compared ≡ alike player.whole) }
{
    let [first, second, third] = SIZES;
    let whole = play_in(heap, &mut player, first)?;
    let again = play_in(heap, &mut player, second)?;
    let difference = difference_at(second, &whole, &again);
    drop(again);
    let again = play_in(heap, &mut player, third)?;
    Ok(Compared {
        items: whole.items.len(),
        difference: difference.or(difference_at(third, &whole, &again)),
    })
}

/// Plays the whole of the source in blocks of each size, and compares what comes out, its ending too.
pub fn compare<S: Source<Item = ConverterSample> + Drop>(
    heap: Global,
    source: S,
) -> Result<Compared, AllocError>
    ensures { IfOk result (λ compared. compared ≡ alike (S.whole source)) }
{
    compare_player(heap, Player::new(source))
}

/// Plays the chain in blocks of several sizes, and compares what comes out.
pub fn compare_blocks<S: Source<Item = ConverterSample> + Drop, G: Source<Item = GainIndex> + Drop>(
    heap: Global,
    settings: &Settings,
    signal: S,
    gain: G,
) -> Result<Compared, AllocError>
    ensures { IfOk result (λ compared. compared
        ≡ alike (played settings.now (S.whole signal) (G.whole gain))) }
{
    let player = standard_player(settings, signal, gain);
    compare_player(heap, player)
}
