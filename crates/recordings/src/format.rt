// What a kind of recording fixes.
ghost use Rattle.std.specs.Prelude.{◌<◌};

use samples::sample::Exact;

/// The highest rate of a recording, in items a second; the lowest is 1.
pub const MAX_RATE: u32 = 100_000_000;

/// What a kind of recording fixes in its format chunk.
#[derive(Clone, Copy, PartialEq, Eq, Debug)]
pub struct Format {
    /// How many numbers an item has.
    pub channels: u16,
    /// Bytes of one item, all channels; at least 1.
    pub align: u16,
    /// Bits of one channel's number.
    pub bits: u16,
    ghost takes_room: { 0 < align },
}

impl Exact for Format {
    ghost use Rattle.recordings.specs.Equal.{same_format};
    ghost use Rattle.std.proofs.Common.{rules};

    ghost exact = { λ x y. (
      λ h. same_format x y (Prim.search rules) (Prim.search rules) (Prim.search rules),
      λ e. Prim.search rules,
    ) };
}
