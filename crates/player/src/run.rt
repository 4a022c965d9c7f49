// Runs: a list of calls on one player.
ghost use Rattle.std.specs.Prelude.{◌≡◌, ◌≢◌, [], IfOk, OnErr};
ghost use Rattle.player.specs.Runs.{RunLawful};

use crate::calls::{Answer, Call};
use crate::player::Player;
use sources::source::Source;
use std::alloc::{AllocError, Global};

/// Makes a player over the source, carries out the calls, and hands back each answer with each
/// buffer. Out of memory is reported only where there are calls, since the answers alone take
/// memory.
pub fn run<S: Source + Drop>(
    heap: Global,
    source: S,
    calls: Vec<Call<S::Item>>,
) -> Result<Vec<Answer<S::Item>>, AllocError>
    ensures law { IfOk result (RunLawful (S.whole source) calls) }
    ensures memory { OnErr result (calls.items ≢ []) }
{
    let mut player = Player::new(source);
    let mut answers = Vec::new(heap);
    for call in calls {
        answers.push(player.answer(call))?;
    }
    Ok(answers)
}
