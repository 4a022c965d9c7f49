// Playing a chain over and over, and how long an item takes.
ghost use Rattle.std.specs.Prelude.{◌≡◌, ◌<◌, length, max, IfOk, IfErr, None};
ghost use Rattle.program.specs.Bench.{TimedOf, sum_from, with_part};
ghost use Rattle.program.specs.Refusals.{refusal_in};

use crate::block::{Block, ChainEnding, copies, next_block};
use crate::failure::Failure;
use crate::host::Host;
use player::player::Player;
use samples::kinds::ConverterSample;
use samples::sample::Sample;
use sources::source::Source;
use std::alloc::Global;
use std::io;
use std::time::Duration;

// How many items a fill wants.
const BLOCK: usize = 4096;

/// What was timed: how many runs were made, how many items a run has, a sum over them, the time that its fills took, and
/// how the chain ends.
#[derive(Clone, Copy, Debug)]
pub struct Timed {
    /// How many runs were made, at least 1.
    pub runs: u32,
    /// How many samples a run has, up to 2^64 - 1.
    pub items: u64,
    /// The sum over all their parts, modulo 2^64.
    pub sum: u64,
    /// The shortest time that the fills of a run took.
    pub time: Duration,
    /// How the chain ends.
    pub ending: ChainEnding,
}

// The sum by which two runs are compared, with one part more.
fn add_part(sum: u64, part: i16) -> u64
    ensures { result ≡ with_part sum part }
{
    let wide = u128::from(sum) * 31 + u128::from(part.cast_unsigned());
    (wide % (1 << 64)) as u64
}

// The sum with both parts of each sample in order.
fn add_samples(sum: u64, samples: &[ConverterSample]) -> u64
    ensures { result ≡ sum_from sum samples.now }
{
    samples.iter().fold(sum, |sum, sample| {
        add_part(add_part(sum, sample.re), sample.im)
    })
}

// Plays from the start to the end. Only the fills are timed.
fn play_once<S: Source<Item = ConverterSample>, H: Host>(
    host: &H,
    player: &mut Player<S>,
    block: &mut [ConverterSample],
) -> io::Result<Timed>
    requires { 0 < length block.old }
    ensures timed { IfOk result (TimedOf player.old.whole) }
    ensures run { IfOk result (λ timed. timed.runs ≡ 1) }
    ensures whole { player.new.whole ≡ player.old.whole }
{
    let mut items = 0u64;
    let mut sum = 0;
    let mut time = Duration::ZERO;
    player.rewind();
    loop {
        let start = host.time()?;
        let Block { count, ending } = next_block(player, block);
        time = time.saturating_add(host.time()?.saturating_sub(start));
        if let Some(ending) = ending {
            return Ok(Timed {
                runs: 1,
                items,
                sum,
                time,
                ending,
            });
        }
        items = items.saturating_add(count as u64);
        sum = add_samples(sum, &block[..count]);
    }
}

// Plays so often, at least once, and answers the best time; the runs must all give the same samples.
fn play_often<'a, S: Source<Item = ConverterSample>, H: Host>(
    host: &H,
    player: &mut Player<S>,
    block: &mut [ConverterSample],
    runs: u32,
) -> Result<Timed, Failure<'a>>
    requires { 0 < length block.old }
    ensures timed { IfOk result (TimedOf player.old.whole) }
    ensures runs { IfOk result (λ timed. timed.runs ≡ max 1 runs) }
    ensures opened { IfErr result (λ e. refusal_in e ≡ None) }
{
    let mut best = play_once(host, player, block)?;
    for number in 1..runs {
        let run = play_once(host, player, block)?;
        if run.items != best.items || run.sum != best.sum {
            return Err(Failure::RunsDiffer(number));
        }
        best.time = best.time.min(run.time);
        best.runs += 1;
    }
    Ok(best)
}

/// Plays the player's whole from its start so often, at least once, and answers the best time.
pub fn time_player<'a, S: Source<Item = ConverterSample> + Drop, H: Host>(
    heap: Global,
    host: &H,
    mut player: Player<S>,
    runs: u32,
) -> Result<Timed, Failure<'a>>
    ensures timed { IfOk result (TimedOf player.whole) }
    ensures runs { IfOk result (λ timed. timed.runs ≡ max 1 runs) }
    ensures opened { IfErr result (λ e. refusal_in e ≡ None) }
{
    let mut block = copies(heap, ConverterSample::new(0, 0), BLOCK)?;
    play_often(host, &mut player, block.as_mut_slice(), runs)
}

/// Plays the whole of the source so often, at least once, and answers the best time.
pub fn time<'a, S: Source<Item = ConverterSample> + Drop, H: Host>(
    heap: Global,
    host: &H,
    source: S,
    runs: u32,
) -> Result<Timed, Failure<'a>>
    ensures timed { IfOk result (TimedOf (S.whole source)) }
    ensures runs { IfOk result (λ timed. timed.runs ≡ max 1 runs) }
    ensures opened { IfErr result (λ e. refusal_in e ≡ None) }
{
    time_player(heap, host, Player::new(source), runs)
}
