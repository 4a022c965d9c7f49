// Random numbers: a shifting state of 64 bits, the same at every start of the program.

#[derive(Clone, Copy)]
pub(crate) struct Random {
    state: u64,
}

impl Random {
    pub(crate) fn new(seed: u64) -> Random {
        Random { state: seed }
    }

    pub(crate) fn number(&mut self) -> u64 {
        let v = self.state;
        let v = v ^ (v << 13);
        let v = v ^ (v >> 7);
        self.state = v ^ (v << 17);
        self.state
    }

    // A number below the limit, or 0.
    pub(crate) fn below(&mut self, limit: u32) -> u32 {
        let number = (self.number() >> 32) as u32;
        number.checked_rem(limit).unwrap_or(0)
    }

    // A number from low on, so many in all.
    pub(crate) fn within(&mut self, low: i64, count: u32) -> i64 {
        low.saturating_add(i64::from(self.below(count)))
    }

    pub(crate) fn coin(&mut self) -> bool {
        self.below(2) == 0
    }

    // 16 bits, signed.
    pub(crate) fn word(&mut self) -> i16 {
        let [low, high, ..] = self.number().to_le_bytes();
        i16::from_le_bytes([low, high])
    }
}
