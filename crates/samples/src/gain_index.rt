// Gain indices.
ghost use Rattle.std.specs.Prelude.{◌≡◌, ◌≤◌};

use crate::sample::Exact;

/// Which of the 128 receive gains is meant, 0 to 127.
#[derive(Clone, Copy, PartialEq, Eq, Debug)]
pub struct GainIndex {
    /// 0 to 127.
    pub index: u8,
    ghost within: { index ≤ 127 },
}

impl GainIndex {
    ghost use Rattle.samples.specs.Kinds.{gain_index};

    /// The index nearest to n.
    pub fn new(n: i64) -> Self
        ensures { result ≡ gain_index n }
    {
        GainIndex {
            index: n.clamp(0, 127) as u8,
        }
    }
}

impl Exact for GainIndex {
    ghost use Rattle.samples.specs.Equal.{same_index};
    ghost use Rattle.std.proofs.Common.{rules};

    ghost exact = { λ x y. (λ h. same_index x y (Prim.search rules), λ e. Prim.search rules) };
}
