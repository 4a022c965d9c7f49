// Stages in an order of one's own over a source of one's own, and a player over them.
ghost use Rattle.std.specs.Prelude.{◌≡◌};
ghost use Rattle.player.specs.Runs.{EveryRunLawful};
ghost use Rattle.stacking.specs.Stacks.{received};
ghost use Rattle.stacking.specs.Tones.{tone};

use crate::tone::Tone;
use player::player::Player;
use samples::kinds::WorkingSample;
use sources::each::Each;
use sources::scan::Scan;
use sources::source::Source;
use stages::clock_offset::{Clock, ClockOffset};
use stages::dc_offset::{DcOffset, Offset};
use stages::multipath::{Multipath, Paths};

/// Clock offset, then multipath, then DC offset, over a tone.
pub(crate) type Received = Each<Scan<Clock<Tone>, Multipath>, DcOffset<WorkingSample>>;

// The stages over the tone.
fn receiver(turn: u16, length: u32, clock: ClockOffset, paths: Paths, dc: Offset) -> Received
    ensures { ⟦<Received as Source>⟧.whole result ≡ received clock paths dc (tone turn length) }
{
    let tone = Tone::new(turn, length);
    let clocked = Clock::new(false, clock, tone);
    let echoed = Scan::new(Multipath::new(paths), clocked);
    Each::new(DcOffset::new(dc), echoed)
}

/// A player at the start of a tone behind the stages. Whatever calls are then made of it: what comes out at place
/// k is item k of what the stages' formulas make of the tone, and the tone's fault is reported exactly where that ends.
pub(crate) fn tone_player(
    turn: u16,
    length: u32,
    clock: ClockOffset,
    paths: Paths,
    dc: Offset,
) -> Player<Received>
    ensures { EveryRunLawful result (received clock paths dc (tone turn length)) }
{
    let received = receiver(turn, length, clock, paths, dc);
    Player::new(received)
}
