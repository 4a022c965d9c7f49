// Why bytes are not opened.
ghost use Rattle.std.specs.Prelude.{◌≡◌, Some};
ghost use Rattle.recordings.specs.Refusals.{head_place, opening_number, opening_place, head_text, field_text, opening_text};
ghost use Rattle.std.proofs.Common.{rules};

use samples::sample::Exact;
use std::fmt;

/// A field whose value is fixed by the kind of recording; in words, what it must be.
#[derive(Clone, Copy, PartialEq, Eq, Debug)]
pub enum Field {
    /// The size of the format chunk: 16.
    FormatSize,
    /// 1, PCM.
    Tag,
    /// Channels: 2 of a signal, 1 of a gain recording.
    Channels,
    /// Items a second: 1 to 100,000,000.
    Rate,
    /// Bytes a second: the rate times the bytes of an item.
    ByteRate,
    /// Bytes of an item: 4 in a signal, 1 in a gain recording.
    Align,
    /// Bits of a channel's number: 12 in a signal, 8 in a gain recording.
    Bits,
    /// The size of the data chunk in bytes: a multiple of the bytes of an item.
    DataSize,
}

impl Exact for Field {
    ghost exact = { Prim.search rules };
}

/// A part of the head, the first 12 bytes; in words, what is wrong with it.
#[derive(Clone, Copy, PartialEq, Eq, Debug)]
pub enum HeadField {
    /// The mark "RIFF", at byte 0.
    Riff,
    /// The number of bytes less 8, at byte 4.
    Length,
    /// The mark "WAVE", at byte 8.
    Wave,
}

impl Exact for HeadField {
    ghost exact = { Prim.search rules };
}

impl HeadField {
    // Where it begins.
    fn place(self) -> usize
        ensures { result ≡ head_place self }
    {
        match self {
            HeadField::Riff => 0,
            HeadField::Length => 4,
            HeadField::Wave => 8,
        }
    }
}

/// Why bytes are no recording. Behind the head each holds the place of the byte where the refused chunk or field begins,
/// from 0.
#[derive(Clone, Copy, PartialEq, Eq, Debug)]
pub enum OpeningRefusal {
    /// 8: fewer bytes than the head, a chunk's head or a chunk needs.
    TooShort(usize),
    /// 9: a wrong mark or length in the head.
    WrongHead(HeadField),
    /// 10: a field of the format, or the data's size, is not as the kind of recording has it.
    WrongField(Field, usize),
    /// 11: the data stands before the format.
    DataBeforeFormat(usize),
}

impl Exact for OpeningRefusal {
    ghost exact = { Prim.search rules };
}

impl OpeningRefusal {
    /// The number by which the refusal is known, 8 to 11.
    pub fn number(self) -> u8
        ensures { result ≡ opening_number self }
    {
        match self {
            OpeningRefusal::TooShort(_) => 8,
            OpeningRefusal::WrongHead(_) => 9,
            OpeningRefusal::WrongField(_, _) => 10,
            OpeningRefusal::DataBeforeFormat(_) => 11,
        }
    }

    /// The byte place: where the refused part of the head, chunk or field begins, from 0.
    pub fn place(self) -> usize
        ensures { result ≡ opening_place self }
    {
        match self {
            OpeningRefusal::WrongHead(field) => field.place(),
            OpeningRefusal::TooShort(at)
            | OpeningRefusal::DataBeforeFormat(at)
            | OpeningRefusal::WrongField(_, at) => at,
        }
    }
}

impl fmt::Display for HeadField {
    ghost output = { λ r. Some (head_text r) };

    fn fmt<W: fmt::Write>(&self, f: &mut fmt::Formatter<W>) -> fmt::Result {
        match *self {
            HeadField::Riff => write!(f, "it does not begin with RIFF"),
            HeadField::Length => write!(f, "the RIFF length is not the number of bytes less 8"),
            HeadField::Wave => write!(f, "the RIFF form is not WAVE"),
        }
    }
}

impl fmt::Display for Field {
    ghost output = { λ r. Some (field_text r) };

    fn fmt<W: fmt::Write>(&self, f: &mut fmt::Formatter<W>) -> fmt::Result {
        match *self {
            Field::FormatSize => write!(f, "the format chunk's size must be 16"),
            Field::Tag => write!(f, "the format tag must be 1 (PCM)"),
            Field::Channels => write!(
                f,
                "the number of channels must be 2 for a signal, 1 for a gain recording"
            ),
            Field::Rate => write!(f, "the rate must be 1 to 100000000"),
            Field::ByteRate => write!(
                f,
                "the byte rate must be the rate times the bytes of an item"
            ),
            Field::Align => write!(
                f,
                "an item must have 4 bytes in a signal, 1 in a gain recording"
            ),
            Field::Bits => write!(
                f,
                "the bits must be 12 for a signal, 8 for a gain recording"
            ),
            Field::DataSize => write!(
                f,
                "the data's size must be a multiple of the bytes of an item"
            ),
        }
    }
}

impl fmt::Display for OpeningRefusal {
    ghost output = { λ r. Some (opening_text r) };

    fn fmt<W: fmt::Write>(&self, f: &mut fmt::Formatter<W>) -> fmt::Result {
        match *self {
            OpeningRefusal::TooShort(_) => write!(f, "the bytes end too early"),
            OpeningRefusal::WrongHead(field) => write!(f, "{field}"),
            OpeningRefusal::WrongField(field, _) => write!(f, "{field}"),
            OpeningRefusal::DataBeforeFormat(_) => write!(f, "the data stands before the format"),
        }
    }
}
