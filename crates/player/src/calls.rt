// The calls of a player as values, and their answers.
ghost use Rattle.std.specs.Prelude.{◌≡◌, true, ◌↔◌};
ghost use Rattle.std.specs.Cmp.Lexicographic.{pointwise_decides};
ghost use Rattle.player.specs.Calls.{asked, answered};
ghost use Rattle.std.proofs.Common.{rules};

use crate::fault::PlayerFault;
use samples::sample::Exact;

/// One call, with its argument. A fill brings its buffer.
#[derive(PartialEq, Eq, Debug, Drop)]
pub enum Call<T> {
    /// The next item.
    Next,
    /// The next items into this buffer, as many as it holds.
    Fill(Vec<T>),
    /// Passes that many items over, 0 to 2^32 - 1.
    Skip(u32),
    /// Back to the start.
    Rewind,
}

/// What a call answered. A fill hands its buffer back.
#[derive(Debug, PartialEq, Eq, Drop)]
pub enum Answer<T> {
    /// The item, no item at the end, or the fault.
    Item(Result<Option<T>, PlayerFault>),
    /// How many items stand in the buffer, or the fault; and the buffer.
    Filled(Result<usize, PlayerFault>, Vec<T>),
    /// How many items were passed over, or the fault.
    Skipped(Result<u32, PlayerFault>),
    /// The player stands at the start.
    Rewound,
}

/// Values with buffers: `==` is true of two exactly if they mean the same, each buffer being the
/// items that it holds.
pub trait Alike: PartialEq {
    /// Two values mean the same.
    ghost same: { Self → Self → Type 0 };

    /// `==` is true exactly of two that mean the same.
    ghost alike: { (x y : Self) → (Self.eq x y ≡ true) ↔ same x y };
}

impl<T: Exact> Alike for Call<T> {
    ghost use Rattle.player.specs.declared.calls.Call.TheVariants.{Next, Fill, Skip, Rewind};

    ghost same = { λ x y. asked x ≡ asked y };

    ghost alike = { elim [
      | Next ↦ Prim.search rules
      | Fill b ↦ elim [
        | Fill c ↦ Prim.search (rules, pointwise_decides T.exact b.items c.items)
        | _ ↦ Prim.search rules
      ]
      | Skip n ↦ Prim.search rules
      | Rewind ↦ Prim.search rules
    ] };
}

impl<T: Exact> Alike for Answer<T> {
    ghost use Rattle.player.specs.declared.calls.Answer.TheVariants.{Item, Filled, Skipped, Rewound};

    ghost same = { λ x y. answered x ≡ answered y };

    ghost alike = { elim [
      | Item r ↦ Prim.search rules
      | Filled r b ↦ elim [
        | Filled s c ↦ Prim.search (rules, pointwise_decides T.exact b.items c.items)
        | _ ↦ Prim.search rules
      ]
      | Skipped r ↦ Prim.search rules
      | Rewound ↦ Prim.search rules
    ] };
}
