// A player: it plays one source, item by item, in blocks, or passing items over.
ghost use Rattle.std.specs.Prelude.{◌≡◌, length};
ghost use Rattle.player.specs.Calls.{next, fill, skip, rewind, item, filled, skipped, rewound, asked, answered};
ghost use Rattle.player.specs.Runs.{EveryRunLawful};
ghost use Rattle.player.specs.Standing.{next_answer, left_to_later, count_answer, buffer_after, answer_to, onward, restarted, standing_after, Plays, Stands};

use crate::calls::{Answer, Call};
use crate::fault::PlayerFault;
use sources::place::Place;
use sources::source::Source;
use std::marker::Model;

/// Plays one source, which may be any pile of stages.
#[derive(Drop)]
pub struct Player<S: Source> {
    source: S,
    // How many items were handed out or skipped since the start or the last rewind.
    place: Place,
}

// In clauses a player is where it stands.
impl<S: Source> Model for Player<S> {
    ghost use Rattle.player.specs.Standing.{Standing, standing};

    ghost Value = { Standing S.Item };

    ghost view = { λ p. standing (S.whole p.source) (S.left p.source) p.place.count };
}

impl<S: Source> Player<S> {
    /// A player at the start of the source's whole. Whatever calls are then made of it, in any
    /// order and with any arguments: what comes out at place k is item k of that whole, and its end
    /// or its fault is reported exactly where items are wanted and none is left.
    #[tactic(auto, using(crate::proofs::Running::lawful))]
    pub fn new(source: S) -> Self
        ensures stands { Stands result (S.whole source) 0 }
        ensures runs { EveryRunLawful result (S.whole source) }
    {
        let mut player = Player {
            source,
            place: Place::start(),
        };
        player.rewind();
        player
    }

    /// The next item; at the end no item, or the fault.
    #[inline(always)]
    pub fn next(&mut self) -> Result<Option<S::Item>, PlayerFault>
        ensures answers { result ≡ next_answer self.old }
        ensures moves { self.new ≡ onward 1 self.old }
        ensures plays { Plays next self.old self.new (item result) }
    {
        let place = self.place.count();
        let item = self.source.next().map_err(|fault| (fault, place))?;
        if item.is_some() {
            self.place = self.place.onward();
        }
        Ok(item)
    }

    // The next item for a call that goes on. If it has already returned items, a fault comes on the
    // next call.
    #[inline(always)]
    fn more(&mut self, got: bool) -> Result<Option<S::Item>, PlayerFault>
        ensures answers { result ≡ left_to_later got (next_answer self.old) }
        ensures moves { self.new ≡ onward 1 self.old }
    {
        match self.next() {
            Err(_) if got => Ok(None),
            answer => answer,
        }
    }

    /// Puts the next items into the buffer from its start, and answers how many; other places stay.
    /// Where items are wanted and none is left: 0, or the fault.
    pub fn fill(&mut self, buffer: &mut [S::Item]) -> Result<usize, PlayerFault>
        ensures answers { result ≡ count_answer (length buffer.old) self.old }
        ensures buffer { buffer.new ≡ buffer_after buffer.old self.old }
        ensures moves { self.new ≡ onward (length buffer.old) self.old }
        ensures plays { Plays (fill buffer.old) self.old self.new (filled result buffer.new) }
    {
        // Named so that its range is known in the loop: a place is at most 2^63 - 1.
        let _ = &self.place;
        // The index is the answer.
        for (placed, slot) in buffer.iter_mut().enumerate() {
            match self.more(placed > 0)? {
                Some(item) => *slot = item,
                None => return Ok(placed),
            }
        }
        Ok(buffer.len())
    }

    /// Passes the next n items over, and answers how many. Where items are wanted and none is left:
    /// 0, or the fault.
    pub fn skip(&mut self, n: u32) -> Result<u32, PlayerFault>
        ensures answers { result ≡ count_answer n self.old }
        ensures moves { self.new ≡ onward n self.old }
        ensures plays { Plays (skip n) self.old self.new (skipped result) }
    {
        // Named so that its range is known in the loop: a place is at most 2^63 - 1.
        let _ = &self.place;
        for passed in 0..n {
            if self.more(passed > 0)?.is_none() {
                return Ok(passed);
            }
        }
        Ok(n)
    }

    /// Back to the start.
    pub fn rewind(&mut self)
        ensures moves { self.new ≡ restarted self.old }
        ensures plays { Plays rewind self.old self.new rewound }
    {
        self.source.rewind();
        self.place = Place::start();
    }

    /// Carries out one call.
    pub fn answer(&mut self, call: Call<S::Item>) -> Answer<S::Item>
        ensures answers { answered result ≡ answer_to (asked call) self.old }
        ensures moves { self.new ≡ standing_after (asked call) self.old }
        ensures plays { Plays (asked call) self.old self.new (answered result) }
    {
        match call {
            Call::Next => Answer::Item(self.next()),
            Call::Fill(mut buffer) => {
                let count = self.fill(buffer.as_mut_slice());
                Answer::Filled(count, buffer)
            }
            Call::Skip(n) => Answer::Skipped(self.skip(n)),
            Call::Rewind => {
                self.rewind();
                Answer::Rewound
            }
        }
    }
}
