// A place: how many items have passed since a start.
ghost use Rattle.std.specs.Prelude.{◌≡◌, ◌+◌, ◌-◌, ◌^◌, ◌≤◌};
ghost use Rattle.sources.specs.Places.{stopped};

/// The last place that is counted, 2^63 - 1.
pub const LAST_PLACE: u64 = 0x7fff_ffff_ffff_ffff;

/// How many items have passed, 0 to 2^63 - 1, where counting stops.
#[derive(Clone, Copy)]
pub struct Place {
    count: u64,
    ghost within: { count ≤ 2 ^ 63 - 1 },
}

impl Place {
    /// Before any item.
    pub fn start() -> Self
        ensures { result.count ≡ 0 }
    {
        Place { count: 0 }
    }

    /// How many items have passed.
    pub fn count(self) -> u64
        ensures { result ≡ self.count }
    {
        self.count
    }

    /// The place behind one more item.
    pub fn onward(self) -> Self
        ensures { result.count ≡ stopped (self.count + 1) }
    {
        Place {
            count: (self.count + 1).min(LAST_PLACE),
        }
    }
}
