// Why a recording is not written, or not rewritten.
ghost use Rattle.std.specs.Prelude.{◌≡◌, Some};
ghost use Rattle.recorder.specs.Refusals.{writing_number, writing_text, rewriting_number, rewriting_text};
ghost use Rattle.recorder.specs.declared.refusal.RewritingRefusal.TheVariants.{Opening, Writing};
ghost use Rattle.std.proofs.Common.{rules};

use recordings::refusal::OpeningRefusal;
use samples::sample::Exact;
use std::fmt;

/// Why the writer does not do what it was asked.
#[derive(Clone, Copy, PartialEq, Eq, Debug)]
pub enum WritingRefusal {
    /// 14: the buffer has fewer than 44 or more than 65,536 bytes.
    Buffer,
    /// 15: the samples do not fit the buffer or 65,536 bytes.
    Full,
    /// 16: the rate is outside 1 to 100,000,000.
    Rate,
}

impl Exact for WritingRefusal {
    ghost exact = { Prim.search rules };
}

impl WritingRefusal {
    /// The number by which the refusal is known, 14 to 16.
    pub fn number(self) -> u8
        ensures { result ≡ writing_number self }
    {
        match self {
            WritingRefusal::Buffer => 14,
            WritingRefusal::Full => 15,
            WritingRefusal::Rate => 16,
        }
    }
}

/// What must be, in words.
impl fmt::Display for WritingRefusal {
    ghost output = { λ r. Some (writing_text r) };

    fn fmt<W: fmt::Write>(&self, f: &mut fmt::Formatter<W>) -> fmt::Result {
        match *self {
            WritingRefusal::Buffer => write!(f, "the buffer must have 44 to 65536 bytes"),
            WritingRefusal::Full => write!(f, "the samples do not fit the buffer or 65536 bytes"),
            WritingRefusal::Rate => write!(f, "the rate must be 1 to 100000000"),
        }
    }
}

/// Why a recording is not rewritten.
#[derive(Clone, Copy, PartialEq, Eq, Debug)]
pub enum RewritingRefusal {
    /// The bytes do not open.
    Opening(OpeningRefusal),
    /// The buffer is not written.
    Writing(WritingRefusal),
}

impl Exact for RewritingRefusal {
    ghost exact = { Prim.search rules };
}

impl RewritingRefusal {
    /// The number of the refusal that it holds, 8 to 11 or 14 to 16.
    pub fn number(self) -> u8
        ensures { result ≡ rewriting_number self }
    {
        match self {
            RewritingRefusal::Opening(refusal) => refusal.number(),
            RewritingRefusal::Writing(refusal) => refusal.number(),
        }
    }
}

/// The words of the refusal that it holds.
impl fmt::Display for RewritingRefusal {
    ghost output = { λ r. Some (rewriting_text r) };

    fn fmt<W: fmt::Write>(&self, f: &mut fmt::Formatter<W>) -> fmt::Result {
        match *self {
            RewritingRefusal::Opening(refusal) => write!(f, "{refusal}"),
            RewritingRefusal::Writing(refusal) => write!(f, "{refusal}"),
        }
    }
}

impl From<OpeningRefusal> for RewritingRefusal {
    ghost from_gives = { λ refusal r. r ≡ Opening refusal };

    fn from(refusal: OpeningRefusal) -> RewritingRefusal {
        RewritingRefusal::Opening(refusal)
    }
}

impl From<WritingRefusal> for RewritingRefusal {
    ghost from_gives = { λ refusal r. r ≡ Writing refusal };

    fn from(refusal: WritingRefusal) -> RewritingRefusal {
        RewritingRefusal::Writing(refusal)
    }
}
