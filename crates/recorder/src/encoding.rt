// The bytes of a written recording.
ghost use Rattle.std.specs.Prelude.{◌≡◌, ◌+◌, ◌≤◌, length};
ghost use Rattle.samples.specs.Arithmetic.{Within};
ghost use Rattle.recordings.specs.Bytes.{overwrite, le16};
ghost use Rattle.recorder.specs.Writing.{header, word, coded};

use crate::started::HEADER;
use samples::kinds::ConverterSample;

// Writes the content at place `at`.
pub(crate) fn place(bytes: &mut [u8], at: usize, content: &[u8])
    requires { at + length content.now ≤ length bytes.old }
    ensures { bytes.new ≡ overwrite at content.now bytes.old }
{
    let end = at + content.len();
    bytes[at..end].copy_from_slice(content);
}

// A part in the upper 12 of 16 bits.
fn word(part: i16) -> [u8; 2]
    requires { Within 12 part }
    ensures { result ≡ le16 (word part) }
{
    (16 * part).to_le_bytes()
}

// A sample in four bytes.
pub(crate) fn coded(sample: ConverterSample) -> [u8; 4]
    ensures { result ≡ coded sample }
{
    let [re_low, re_high] = word(sample.re);
    let [im_low, im_high] = word(sample.im);
    [re_low, re_high, im_low, im_high]
}

// The header of a recording whose sizes are not known yet.
pub(crate) fn header(rate: u32) -> [u8; HEADER]
    requires { rate ≤ 100000000 }
    ensures { result ≡ header rate 0 0 }
{
    let mut header =
        *b"RIFF\0\0\0\0WAVEfmt \x10\0\0\0\x01\0\x02\0\0\0\0\0\0\0\0\0\x04\0\x0c\0data\0\0\0\0";
    header[24..28].copy_from_slice(&rate.to_le_bytes());
    header[28..32].copy_from_slice(&(4 * rate).to_le_bytes());
    header
}
