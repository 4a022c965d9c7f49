// Writing a signal recording into a buffer: start, put, finish, abandon.
ghost use Rattle.std.specs.Prelude.{◌≡◌, [], length, IfOk, OnOk};
ghost use Rattle.recorder.specs.Writing.{accept_answer, start_answer, after_start, put_answer, put_count, after_put, finish_answer, after_finish, Holds, Adds, Finishes, Overfull};

use crate::encoding::{coded, header, place};
use crate::refusal::WritingRefusal;
use recordings::format::MAX_RATE;
use samples::kinds::ConverterSample;

/// The bytes before the samples.
pub const HEADER: usize = 44;

/// The most bytes that a recording is written with.
pub const MAX_BYTES: usize = 65536;

// The rate and a buffer of so many bytes are accepted.
pub(crate) fn accept(length: usize, rate: u32) -> Result<(), WritingRefusal>
    ensures { result ≡ accept_answer length rate }
{
    if !(1..=MAX_RATE).contains(&rate) {
        return Err(WritingRefusal::Rate);
    }
    if !(HEADER..=MAX_BYTES).contains(&length) {
        return Err(WritingRefusal::Buffer);
    }
    Ok(())
}

/// A started recording: how many samples were put in. The caller lends the buffer at each call; it may be another one each
/// time. It must be finished or abandoned: to drop it needs a proof that its count is the highest of 32 bits, and no
/// recording comes that far.
#[derive(Debug)]
pub struct StartedRecording {
    samples: u32,
}

impl Drop for StartedRecording {
    fn drop(self)
        requires { Overfull self }
    {
        let StartedRecording { samples: _ } = self;
    }
}

impl StartedRecording {
    /// Begins a recording at this rate, 1 to 100,000,000 samples a second (else refusal 16), in a buffer of 44 to 65,536
    /// bytes (else refusal 14). Writes the header, with both sizes 0.
    pub fn start(bytes: &mut [u8], rate: u32) -> Result<StartedRecording, WritingRefusal>
        ensures answer { result ≡ start_answer (length bytes.old) rate }
        ensures bytes { bytes.new ≡ after_start bytes.old rate }
        ensures holds { OnOk result (Holds bytes.new rate []) }
        ensures short { IfOk result (λ w. ¬ Overfull w) }
    {
        accept(bytes.len(), rate)?;
        place(bytes, 0, &header(rate));
        Ok(StartedRecording { samples: 0 })
    }

    /// Adds a sample. Where it does not fit the buffer or 65,536 bytes, refusal 15, and nothing changes.
    pub fn put(&mut self, bytes: &mut [u8], sample: ConverterSample) -> Result<(), WritingRefusal>
        ensures answer { result ≡ put_answer (length bytes.old) self.old.samples }
        ensures count { self.new.samples ≡ put_count (length bytes.old) self.old.samples }
        ensures bytes { bytes.new ≡ after_put bytes.old self.old.samples sample }
        ensures holds { OnOk result (Adds bytes.old bytes.new self.old.samples sample) }
        ensures short { ¬ Overfull self.old → ¬ Overfull self.new }
    {
        let at = HEADER + 4 * self.samples as usize;
        if at + 4 > bytes.len() || at + 4 > MAX_BYTES {
            return Err(WritingRefusal::Full);
        }
        place(bytes, at, &coded(sample));
        self.samples += 1;
        Ok(())
    }

    /// Writes the two sizes and answers the length of the recording in bytes, which begins at the buffer's start. Where the
    /// samples do not fit this buffer or 65,536 bytes, refusal 15 gives the recording back, and nothing changes.
    pub fn finish(self, bytes: &mut [u8]) -> Result<usize, (WritingRefusal, StartedRecording)>
        ensures answer { result ≡ finish_answer (length bytes.old) self }
        ensures bytes { bytes.new ≡ after_finish bytes.old self.samples }
        ensures opens { OnOk result (Finishes bytes.old bytes.new self.samples) }
    {
        let size = HEADER + 4 * self.samples as usize;
        if size > bytes.len() || size > MAX_BYTES {
            return Err((WritingRefusal::Full, self));
        }
        place(bytes, 4, &(size as u32 - 8).to_le_bytes());
        place(bytes, 40, &(4 * self.samples).to_le_bytes());
        let StartedRecording { samples: _ } = self;
        Ok(size)
    }

    /// Lets the recording go unfinished, and answers how many samples were put in. No byte changes.
    pub fn abandon(self) -> u32
        ensures { result ≡ self.samples }
    {
        let StartedRecording { samples } = self;
        samples
    }
}
