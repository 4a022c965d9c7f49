// Playing in blocks.
ghost use Rattle.std.specs.Prelude.{◌≡◌, ℕ, ◌<◌, length, vec_len, IfOk};
ghost use Rattle.samples.specs.declared.kinds.ConverterSample.{ConverterSample};
ghost use Rattle.sources.specs.Streams.{Stream};
ghost use Rattle.player.specs.Standing.{Stands};
ghost use Rattle.program.specs.Blocks.{Comes};

use player::fault::PlayerFault;
use player::player::Player;
use samples::kinds::ConverterSample;
use sources::source::Source;
use std::alloc::{AllocError, Global};

/// How a chain that is played ends: finished, or by the fault that the player met.
pub type ChainEnding = Result<(), PlayerFault>;

/// What came to one fill: how many samples, or how the chain ends where none is left.
#[derive(Clone, Copy)]
pub(crate) struct Block {
    pub(crate) count: usize,
    pub(crate) ending: Option<ChainEnding>,
}

/// So many copies of a value.
pub(crate) fn copies<T: Copy>(heap: Global, value: T, count: usize) -> Result<Vec<T>, AllocError>
    ensures { IfOk result (λ all. vec_len all ≡ count) }
{
    vec![in heap; value; count]
}

/// Fills the block with the next samples.
pub(crate) fn next_block<S: Source<Item = ConverterSample>>(
    player: &mut Player<S>,
    block: &mut [ConverterSample],
) -> Block
    requires { 0 < length block.old }
    ensures { (w : Stream ConverterSample) (p : ℕ) → Stands player.old w p
        → Comes w p block.old block.new player.new result }
{
    match player.fill(block) {
        Ok(0) => Block {
            count: 0,
            ending: Some(Ok(())),
        },
        Ok(count) => Block {
            count,
            ending: None,
        },
        Err(fault) => Block {
            count: 0,
            ending: Some(Err(fault)),
        },
    }
}
