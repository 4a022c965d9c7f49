// The player's fault: the source's fault whole, and the place.
ghost use Rattle.std.specs.Prelude.{◌≡◌, Some};
ghost use Rattle.player.specs.Plain.{player_fault};
ghost use Rattle.player.specs.Words.{player_fault_text};
ghost use Rattle.std.proofs.Common.{rules};

use samples::sample::Exact;
use sources::fault::Fault;
use sources::place::LAST_PLACE;
use std::fmt;

/// What a player answers at a fault.
#[derive(Clone, Copy, PartialEq, Eq, Debug)]
pub struct PlayerFault {
    /// The source's fault.
    pub fault: Fault,
    /// The place at which it came, 0 to 2^63 - 1.
    pub place: u64,
}

impl Exact for PlayerFault {
    ghost exact = { Prim.search rules };
}

/// From a source's fault, and how many items the player had handed out or skipped when it came.
impl From<(Fault, u64)> for PlayerFault {
    ghost from_gives = { λ at r. r ≡ player_fault at.0 at.1 };

    fn from((fault, place): (Fault, u64)) -> PlayerFault {
        PlayerFault {
            fault,
            place: place.min(LAST_PLACE),
        }
    }
}

/// `fault 12 input 0 item 3 place 7`.
impl fmt::Display for PlayerFault {
    ghost output = { λ f. Some (player_fault_text f) };

    fn fmt<W: fmt::Write>(&self, f: &mut fmt::Formatter<W>) -> fmt::Result {
        let fault = self.fault;
        let place = self.place;
        write!(f, "{fault} place {place}")
    }
}
