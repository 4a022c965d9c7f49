// The chunks of a RIFF/WAVE byte string, up to its data.
ghost use Rattle.std.specs.Prelude.{◌≡◌, ◌+◌, ◌^◌, ◌<◌, ◌≤◌, [], ◌∷◌, ◌==◌, length, IfOk, IfErr, if◌then◌else◌, Some, None, Ok, Err, OnOk};
ghost use Rattle.recordings.specs.Bytes.{u16_at, u32_at};
ghost use Rattle.recordings.specs.declared.refusal.OpeningRefusal.TheVariants.{TooShort, WrongField};
ghost use Rattle.recordings.specs.Chunks.{mark, kind_at, size_at, chunk_end, tested, head, field_tests, complete, chunk_of, chunk, Inside, chunks, find_data};
ghost use Rattle.recordings.specs.Reaching.{Reached, Stopped};

use crate::format::{Format, MAX_RATE};
use crate::refusal::{Field, HeadField, OpeningRefusal};

// The 16-bit number at place `at`, the lowest byte first.
fn u16_at(bytes: &[u8], at: usize) -> u16
    requires { at + 2 ≤ length bytes.now }
    ensures { result ≡ u16_at bytes.now at }
{
    u16::from_le_bytes([bytes[at], bytes[at + 1]])
}

// The 32-bit number, likewise.
fn u32_at(bytes: &[u8], at: usize) -> u32
    requires { at + 4 ≤ length bytes.now }
    ensures { result ≡ u32_at bytes.now at }
{
    u32::from_le_bytes([bytes[at], bytes[at + 1], bytes[at + 2], bytes[at + 3]])
}

#[derive(Clone, Copy)]
enum ChunkKind {
    Format,
    Data,
    Other,
}

/// The data of a recording, and its rate.
#[derive(Clone, Copy)]
pub struct Found {
    /// Items a second, 1 to 100,000,000.
    pub rate: u32,
    /// Where the data's first byte stands, from 0.
    pub start: usize,
    /// How many bytes it has: a multiple of the bytes of an item.
    pub size: usize,
}

/// What one chunk leads to: the next chunk with the rate that is known by then, or the data. Public, since the proofs of the
/// recorder name it.
#[derive(Clone, Copy)]
pub enum Step {
    /// The place where the next chunk begins, and the rate, if a format chunk came.
    Onward(usize, Option<u32>),
    /// The data, behind a format.
    Data(Found),
}

// One test: the refusal where it fails.
fn require(passes: bool, refusal: OpeningRefusal) -> Result<(), OpeningRefusal>
    ensures { result ≡ (if passes then Ok tt else Err refusal) }
{
    if passes { Ok(()) } else { Err(refusal) }
}

// The four letters stand at place `at`.
fn is_marked(bytes: &[u8], at: usize, letters: &[u8; 4]) -> bool
    requires { at + 4 ≤ length bytes.now }
    ensures { result ≡ (u32_at bytes.now at == mark letters.now) }
{
    u32_at(bytes, at) == u32_at(letters, 0)
}

// The walk and its steps below need the bounds on the length; each chunk keeps them.
fn check_head(bytes: &[u8]) -> Result<(), OpeningRefusal>
    ensures answer { result ≡ tested (head bytes.now) (Ok tt) }
    ensures length { OnOk result ((12 ≤ length bytes.now) × (length bytes.now < 2 ^ 33)) }
{
    require(bytes.len() >= 12, OpeningRefusal::TooShort(0))?;
    require(
        is_marked(bytes, 0, b"RIFF"),
        OpeningRefusal::WrongHead(HeadField::Riff),
    )?;
    require(
        u32_at(bytes, 4) as usize + 8 == bytes.len(),
        OpeningRefusal::WrongHead(HeadField::Length),
    )?;
    require(
        is_marked(bytes, 8, b"WAVE"),
        OpeningRefusal::WrongHead(HeadField::Wave),
    )
}

// The chunk that begins at `at`. Its head lies within the bytes; its content may go beyond them.
#[derive(Clone, Copy)]
struct Chunk<'a> {
    bytes: &'a [u8],
    at: usize,
    ghost head_within: { at + 8 ≤ length bytes.now },
    ghost few_bytes: { length bytes.now < 2 ^ 33 },
}

impl<'a> Chunk<'a> {
    fn at(bytes: &'a [u8], at: usize) -> Result<Chunk<'a>, OpeningRefusal>
        requires { (at ≤ length bytes.now) × (length bytes.now < 2 ^ 33) }
        ensures here { IfOk result (λ c. (c.bytes.now ≡ bytes.now) × (c.at ≡ at)) }
        ensures cut { IfErr result (λ e. (e ≡ TooShort at) × (length bytes.now < at + 8)) }
    {
        if at + 8 > bytes.len() {
            return Err(OpeningRefusal::TooShort(at));
        }
        Ok(Chunk { bytes, at })
    }

    fn kind(&self) -> ChunkKind
        ensures { result ≡ kind_at self.now.bytes.now self.now.at }
    {
        if is_marked(self.bytes, self.at, b"fmt ") {
            ChunkKind::Format
        } else if is_marked(self.bytes, self.at, b"data") {
            ChunkKind::Data
        } else {
            ChunkKind::Other
        }
    }

    // The size of the content, from the chunk's head.
    fn size(&self) -> u32
        ensures { result ≡ size_at self.now.bytes.now self.now.at }
    {
        u32_at(self.bytes, self.at + 4)
    }

    // Where it ends: behind the content, and the pad byte that follows an odd size. All of it lies within the bytes.
    fn end(&self) -> Result<usize, OpeningRefusal>
        ensures answer { result ≡ tested (complete self.now.bytes.now self.now.at ∷ [])
            (Ok (chunk_end self.now.bytes.now self.now.at)) }
        ensures inside { IfOk result (λ end. (end ≡ chunk_end self.now.bytes.now self.now.at)
            × (end ≤ length self.now.bytes.now)) }
    {
        let size = self.size() as usize;
        let end = self.at + 8 + size + size % 2;
        require(end <= self.bytes.len(), OpeningRefusal::TooShort(self.at))?;
        Ok(end)
    }

    // One test of the field at this offset.
    fn require(&self, passes: bool, field: Field, offset: usize) -> Result<(), OpeningRefusal>
        requires { offset < 2 ^ 8 }
        ensures { result
            ≡ (if passes then Ok tt else Err (WrongField field (self.now.at + offset))) }
    {
        require(passes, OpeningRefusal::WrongField(field, self.at + offset))
    }

    // Tests the fields of a format chunk, and answers the rate.
    fn format_fields(&self, format: Format) -> Result<u32, OpeningRefusal>
        requires { self.now.at + 24 ≤ length self.now.bytes.now }
        ensures { result ≡ tested (field_tests format self.now.bytes.now self.now.at)
            (Ok (u32_at self.now.bytes.now (self.now.at + 12))) }
    {
        let tag = u16_at(self.bytes, self.at + 8);
        self.require(tag == 1, Field::Tag, 8)?;
        let channels = u16_at(self.bytes, self.at + 10);
        self.require(channels == format.channels, Field::Channels, 10)?;
        let rate = u32_at(self.bytes, self.at + 12);
        self.require((1..=MAX_RATE).contains(&rate), Field::Rate, 12)?;
        let byte_rate = u32_at(self.bytes, self.at + 16);
        self.require(
            u64::from(byte_rate) == u64::from(rate) * u64::from(format.align),
            Field::ByteRate,
            16,
        )?;
        let align = u16_at(self.bytes, self.at + 20);
        self.require(align == format.align, Field::Align, 20)?;
        let bits = u16_at(self.bytes, self.at + 22);
        self.require(bits == format.bits, Field::Bits, 22)?;
        Ok(rate)
    }

    // The first format chunk.
    fn format(&self, format: Format) -> Result<Step, OpeningRefusal>
        ensures answer { result
            ≡ chunk_of ChunkKind.Format format self.now.bytes.now self.now.at None }
        ensures inside { IfOk result (Inside self.now.bytes.now self.now.at) }
    {
        self.require(self.size() == 16, Field::FormatSize, 4)?;
        let end = self.end()?;
        let rate = self.format_fields(format)?;
        Ok(Step::Onward(end, Some(rate)))
    }

    // The data chunk behind a format.
    fn data(&self, format: Format, rate: u32) -> Result<Step, OpeningRefusal>
        ensures answer { result
            ≡ chunk_of ChunkKind.Data format self.now.bytes.now self.now.at (Some rate) }
        ensures inside { IfOk result (Inside self.now.bytes.now self.now.at) }
    {
        let size = self.size();
        self.require(size % u32::from(format.align) == 0, Field::DataSize, 4)?;
        self.end()?;
        Ok(Step::Data(Found {
            rate,
            start: self.at + 8,
            size: size as usize,
        }))
    }
}

// What the chunk at `at` leads to, where this rate is known from a format before it. Other chunks, and a format after the
// first, are passed over.
fn next_step(
    bytes: &[u8],
    at: usize,
    format: Format,
    rate: Option<u32>,
) -> Result<Step, OpeningRefusal>
    requires { (at ≤ length bytes.now) × (length bytes.now < 2 ^ 33) }
    ensures answer { result ≡ chunk format bytes.now at rate }
    ensures inside { IfOk result (Inside bytes.now at) }
{
    let chunk = Chunk::at(bytes, at)?;
    match (chunk.kind(), rate) {
        (ChunkKind::Format, None) => chunk.format(format),
        (ChunkKind::Data, None) => Err(OpeningRefusal::DataBeforeFormat(at)),
        (ChunkKind::Data, Some(known)) => chunk.data(format, known),
        _ => Ok(Step::Onward(chunk.end()?, rate)),
    }
}

// The chunks behind the head, in their order, up to the data.
fn walk(bytes: &[u8], format: Format) -> Result<Found, OpeningRefusal>
    requires { (12 ≤ length bytes.now) × (length bytes.now < 2 ^ 33) }
    ensures answer { result ≡ chunks format bytes.now (length bytes.now) 12 None }
    ensures inside { IfOk result (λ found. found.start + found.size ≤ length bytes.now) }
{
    let mut at = 12;
    let mut rate = None;
    // A `loop`, since each chunk says where the next begins.
    loop {
        match next_step(bytes, at, format, rate)? {
            Step::Onward(next, known) => {
                at = next;
                rate = known;
            }
            Step::Data(found) => return Ok(found),
        }
    }
}

/// Where the data of a recording of this format stands in the bytes, and the rate. Refused, 8 to 11, by the first test that
/// fails, in byte order.
#[tactic(auto, using(crate::proofs::Places::reached, crate::proofs::Places::stopped))]
pub fn find_data(bytes: &[u8], format: Format) -> Result<Found, OpeningRefusal>
    ensures answer { result ≡ find_data format bytes.now }
    ensures found { IfOk result (Reached format bytes.now) }
    ensures refused { IfErr result (Stopped format bytes.now) }
    ensures inside { IfOk result (λ found. found.start + found.size ≤ length bytes.now) }
{
    check_head(bytes)?;
    walk(bytes, format)
}
