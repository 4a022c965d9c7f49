// The plain player: it knows the whole, and keeps only the place.
use player::calls::{Answer, Call};
use player::fault::PlayerFault;
use sources::fault::Ending;
use sources::whole::Whole;

#[derive(Drop)]
pub(crate) struct Plain<T> {
    whole: Whole<T, Ending>,
    place: usize,
}

impl<T: Copy> Plain<T> {
    pub(crate) fn new(whole: Whole<T, Ending>) -> Plain<T> {
        Plain { whole, place: 0 }
    }

    // Moves on by as many items as are wanted and left, and answers how many; the ending if items are wanted and none
    // is left.
    fn hand_out(&mut self, wanted: usize) -> Result<usize, PlayerFault> {
        let count = wanted.min(self.whole.items.len().saturating_sub(self.place));
        if wanted > 0 && count == 0 {
            let place = self.place as u64;
            self.whole
                .ending
                .map_err(|fault| PlayerFault { fault, place })?;
        }
        self.place = self.place.saturating_add(count);
        Ok(count)
    }

    fn next(&mut self) -> Result<Option<T>, PlayerFault> {
        let place = self.place;
        self.hand_out(1)?;
        Ok(self.whole.items.get(place).copied())
    }

    fn fill(&mut self, buffer: &mut [T]) -> Result<usize, PlayerFault> {
        let place = self.place;
        let count = self.hand_out(buffer.len())?;
        for (slot, item) in buffer.iter_mut().zip(self.whole.items.iter().skip(place)) {
            *slot = *item;
        }
        Ok(count)
    }

    fn skip(&mut self, wanted: u32) -> Result<u32, PlayerFault> {
        let count = self.hand_out(wanted as usize)?;
        Ok(u32::try_from(count).unwrap_or(u32::MAX))
    }

    // Beside the player's own: the two are compared.
    pub(crate) fn answer(&mut self, call: Call<T>) -> Answer<T> {
        match call {
            Call::Next => Answer::Item(self.next()),
            Call::Fill(mut buffer) => {
                let count = self.fill(buffer.as_mut_slice());
                Answer::Filled(count, buffer)
            }
            Call::Skip(wanted) => Answer::Skipped(self.skip(wanted)),
            Call::Rewind => {
                self.place = 0;
                Answer::Rewound
            }
        }
    }
}
