// Faults: what can be wrong with an item, and how a list of items ends.
ghost use Rattle.std.specs.Prelude.{◌≡◌, Some};
ghost use Rattle.sources.specs.Faults.{at_item_text, fault_number, fault_text, kind_text};
ghost use Rattle.std.proofs.Common.{rules};

use samples::sample::Exact;
use std::fmt;

/// What is wrong with an item.
#[derive(Clone, Copy, PartialEq, Eq, Debug)]
pub enum FaultKind {
    /// A part of a signal sample has low four bits that are not 0.
    LowBits,
    /// A gain byte is over 127.
    GainOver,
    /// A fault of a source that somebody else writes, by a number of the writer's choice, 0 to 255. Numbers up to 63 may
    /// come to name faults of our own.
    Other(u8),
}

impl FaultKind {
    /// The fault's number: 12 or 13, or the one that its writer chose.
    pub fn number(self) -> u8
        ensures { result ≡ fault_number self }
    {
        match self {
            FaultKind::LowBits => 12,
            FaultKind::GainOver => 13,
            FaultKind::Other(number) => number,
        }
    }
}

impl Exact for FaultKind {
    ghost exact = { Prim.search rules };
}

/// What is wrong, in words; of a fault that somebody else's source has, its number alone.
impl fmt::Display for FaultKind {
    ghost output = { λ k. Some (kind_text k) };

    fn fmt<W: fmt::Write>(&self, f: &mut fmt::Formatter<W>) -> fmt::Result {
        match *self {
            FaultKind::LowBits => write!(f, "the low four bits of a part are not 0"),
            FaultKind::GainOver => write!(f, "a gain byte is over 127"),
            FaultKind::Other(number) => write!(f, "fault {number}"),
        }
    }
}

/// A fault: its kind, the input that has it, by the number that the input was given, and the item's place there, from 0.
#[derive(Clone, Copy, PartialEq, Eq, Debug)]
pub struct Fault {
    /// What is wrong.
    pub kind: FaultKind,
    /// Any number: who opens the bytes chooses it.
    pub input: u8,
    /// From 0, in the items of that input.
    pub item: u64,
}

impl Exact for Fault {
    ghost exact = { Prim.search rules };
}

impl fmt::Display for Fault {
    ghost output = { λ f. Some (fault_text f) };

    fn fmt<W: fmt::Write>(&self, f: &mut fmt::Formatter<W>) -> fmt::Result {
        let number = self.kind.number();
        let input = self.input;
        let item = self.item;
        write!(f, "fault {number} input {input} item {item}")
    }
}

/// A fault where it is clear whose it is, in words: `fault 12 at item 250`.
#[derive(Clone, Copy, Debug)]
pub struct AtItem(pub Fault);

impl fmt::Display for AtItem {
    ghost output = { λ x. Some (at_item_text x.0) };

    fn fmt<W: fmt::Write>(&self, f: &mut fmt::Formatter<W>) -> fmt::Result {
        let number = self.0.kind.number();
        let item = self.0.item;
        write!(f, "fault {number} at item {item}")
    }
}

/// How a finite list of items ends: finished, or by a fault.
pub type Ending = Result<(), Fault>;
