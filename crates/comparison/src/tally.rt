// How many cases were compared.
ghost use Rattle.std.specs.Prelude.{◌≡◌, ◌≤◌, if◌then◌else◌};
ghost use Rattle.comparison.specs.Tallies.{counted};

/// How many cases were compared, and how many of them were wrong. Each count stops at 2^64 - 1.
#[derive(Clone, Copy, Debug)]
pub struct Tally {
    /// All cases; counting stops at 2^64 - 1.
    pub cases: u64,
    /// Those that were wrong.
    pub wrong: u64,
    ghost some: { wrong ≤ cases },
}

impl Tally {
    /// No case yet.
    pub fn new() -> Tally
        ensures cases { result.cases ≡ 0 }
        ensures wrong { result.wrong ≡ 0 }
    {
        Tally { cases: 0, wrong: 0 }
    }

    /// Counts one more case, right or wrong.
    pub fn count(&mut self, right: bool)
        ensures cases { self.new.cases ≡ counted self.old.cases 1 }
        ensures wrong { self.new.wrong ≡ counted self.old.wrong (if right then 0 else 1) }
    {
        self.add(Tally {
            cases: 1,
            wrong: u64::from(!right),
        });
    }

    /// Counts the cases of another tally in.
    pub fn add(&mut self, other: Tally)
        ensures cases { self.new.cases ≡ counted self.old.cases other.cases }
        ensures wrong { self.new.wrong ≡ counted self.old.wrong other.wrong }
    {
        *self = Tally {
            cases: self.cases.saturating_add(other.cases),
            wrong: self.wrong.saturating_add(other.wrong),
        };
    }
}
