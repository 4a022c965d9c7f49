// Whole sessions: one recording of what a source has left, and a recording read and rewritten.
ghost use Rattle.std.specs.Prelude.{◌≡◌, ◌+◌, ◌≤◌, length, take, OnOk};
ghost use Rattle.sources.specs.Streams.{from};
ghost use Rattle.recordings.specs.Opening.{signal_opening, HandsOut};
ghost use Rattle.recorder.specs.Sessions.{taken, met, record_answer, after_record, left_after_record, filled, ComesBack, write_answer, after_write, rewrite_answer, after_rewrite, RewritesAs, Keeps};
ghost use Rattle.recorder.specs.Writing.{size_of};
ghost use Rattle.std.proofs.Common.{rules};

use crate::refusal::{RewritingRefusal, WritingRefusal};
use crate::started::{HEADER, StartedRecording, accept};
use recordings::layout::Signal;
use recordings::recording::Recording;
use samples::kinds::ConverterSample;
use samples::sample::Exact;
use sources::fault::Ending;
use sources::listed::Listed;
use sources::source::Source;

/// One recording that was written.
#[derive(Clone, Copy, PartialEq, Eq, Debug)]
pub struct Part {
    /// Its length in bytes, 44 to 65,536.
    pub length: usize,
    /// How many samples went in, 0 to 16,373.
    pub samples: usize,
    /// The source's ending, if it was met before the buffer was full.
    pub ending: Option<Ending>,
}

impl Exact for Part {
    ghost exact = { Prim.search rules };
}

// Puts in up to `room` samples of the source; answers the source's ending, if it was met.
fn put_all<S: Source<Item = ConverterSample>>(
    recording: &mut StartedRecording,
    source: &mut S,
    bytes: &mut [u8],
    room: usize,
) -> Option<Ending>
    requires fits { size_of (recording.old.samples + room) ≤ length bytes.old }
    requires short { length bytes.old ≤ 65536 }
    ensures answer { result ≡ met room (S.Source.left source.old) }
    ensures count { recording.new.samples
        ≡ recording.old.samples + taken room (S.Source.left source.old) }
    ensures bytes { bytes.new
        ≡ filled recording.old.samples room (S.Source.left source.old) bytes.old }
    ensures left { S.Source.left source.new
        ≡ from (taken room (S.Source.left source.old)) (S.Source.left source.old) }
    ensures whole { S.Source.whole source.new ≡ S.Source.whole source.old }
{
    for _ in 0..room {
        match source.next() {
            Ok(Some(sample)) => recording.put(bytes, sample).unwrap(),
            // Two arms, not one with `map`: each names the ending that was met.
            Ok(None) => return Some(Ok(())),
            Err(fault) => return Some(Err(fault)),
        }
    }
    None
}

/// Writes one recording at this rate into the buffer, of as many samples of the source as there is room for, and finishes
/// it. Refused as by `start`, and then nothing changes.
pub fn record<S: Source<Item = ConverterSample>>(
    source: &mut S,
    rate: u32,
    out: &mut [u8],
) -> Result<Part, WritingRefusal>
    ensures answer { result ≡ record_answer (length out.old) rate (S.Source.left source.old) }
    ensures bytes { out.new ≡ after_record out.old rate (S.Source.left source.old) }
    ensures left { S.Source.left source.new
        ≡ left_after_record (length out.old) rate (S.Source.left source.old) }
    ensures whole { S.Source.whole source.new ≡ S.Source.whole source.old }
    ensures opens { OnOk result
        (ComesBack (length out.old) rate (S.Source.left source.old) out.new) }
{
    let mut recording = StartedRecording::start(out, rate)?;
    let room = (out.len() - HEADER) / 4;
    let ending = put_all(&mut recording, source, out, room);
    let length = recording.finish(out).unwrap();
    Ok(Part {
        length,
        samples: (length - HEADER) / 4,
        ending,
    })
}

/// Writes the samples as one recording at this rate, and answers its length in bytes. Refused as by `start`, or with 15
/// where they do not fit the buffer; then nothing changes.
pub fn write(
    samples: &[ConverterSample],
    rate: u32,
    out: &mut [u8],
) -> Result<usize, WritingRefusal>
    ensures answer { result ≡ write_answer (length out.old) rate (length samples.now) }
    ensures bytes { out.new ≡ after_write out.old rate samples.now }
    ensures opens { OnOk result
        (HandsOut (take (size_of (length samples.now)) out.new) rate samples.now) }
{
    accept(out.len(), rate)?;
    if samples.len() > (out.len() - HEADER) / 4 {
        return Err(WritingRefusal::Full);
    }
    let part = record(&mut Listed::new(samples, Ok(())), rate, out)?;
    Ok(part.length)
}

/// Opens the bytes as a signal recording with this input number, 0 to 255, and writes it anew at its rate, as far as there
/// is room in the buffer; hands back the recording, with its rate, to go on with by `record`. Refused as by `open` or, for
/// the buffer, as by `start`; then nothing changes.
pub fn rewrite<'a>(
    bytes: &'a [u8],
    input: u8,
    out: &mut [u8],
) -> Result<(Part, Recording<'a, Signal>), RewritingRefusal>
    ensures answer { RewritesAs result (length out.old) (signal_opening input bytes.now) }
    ensures bytes { out.new ≡ after_rewrite out.old (signal_opening input bytes.now) }
    ensures keeps { Keeps bytes.now out.old out.new
        (rewrite_answer (length out.old) (signal_opening input bytes.now)) }
{
    let mut recording = Recording::<Signal>::open(bytes, input)?;
    let rate = recording.rate();
    let part = record(&mut recording.content, rate, out)?;
    Ok((part, recording))
}
