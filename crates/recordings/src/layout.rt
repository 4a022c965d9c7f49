// The two kinds of recording: how an item stands in its bytes.
ghost use Rattle.std.specs.Prelude.{◌≡◌, ℕ, List, Result};
ghost use Rattle.recordings.specs.declared.format.Format.{Format};
ghost use Rattle.sources.specs.declared.fault.FaultKind.{FaultKind};
ghost use Rattle.recordings.specs.Opening.{signal_format, gain_format};
ghost use Rattle.recordings.specs.Items.{part_of, signal_item, gain_item};

use crate::format::Format;
use samples::gain_index::GainIndex;
use samples::kinds::ConverterSample;
use samples::sample::Sample;
use sources::fault::FaultKind;

/// A kind of recording: its format, and what the bytes of one item mean. Each item may have a fault of its own kind; a
/// layout in which all bytes are good has none.
pub trait Layout {
    /// What an item is once it is read.
    type Item: Copy;

    /// What every recording of this kind has in its format chunk.
    const FORMAT: Format;

    ghost FORMAT: { Format };

    /// The item that these bytes hold, or what is wrong with it.
    ghost meaning: { List ℕ → Result Self.Item FaultKind };

    /// The item in these bytes, or what is wrong with it. A recording hands exactly `FORMAT.align` bytes.
    fn read(bytes: &[u8]) -> Result<Self::Item, FaultKind>
        ensures { result ≡ meaning bytes.now };
}

/// A signal recording: two channels, the value of a part in the upper 12 of 16 bits. A sample is bad, fault 12, if the low
/// four bits of a part are not 0.
#[derive(Clone, Copy)]
pub struct Signal;

/// A gain recording: one channel, a byte for each gain index, 0 to 127. A byte over 127 is bad, fault 13.
#[derive(Clone, Copy)]
pub struct Gains;

// The upper 12 of 16 bits, as a signed number.
fn part_of(word: u16) -> i64
    ensures { result ≡ part_of word }
{
    i64::from(word.cast_signed() >> 4)
}

impl Layout for Signal {
    type Item = ConverterSample;

    const FORMAT: Format = Format {
        channels: 2,
        align: 4,
        bits: 12,
    };

    ghost FORMAT = { signal_format };

    ghost meaning = { signal_item };

    fn read(bytes: &[u8]) -> Result<ConverterSample, FaultKind> {
        match *bytes {
            [re_low, re_high, im_low, im_high] if re_low % 16 == 0 && im_low % 16 == 0 => {
                let re = u16::from_le_bytes([re_low, re_high]);
                let im = u16::from_le_bytes([im_low, im_high]);
                Ok(ConverterSample::new(part_of(re), part_of(im)))
            }
            _ => Err(FaultKind::LowBits),
        }
    }
}

impl Layout for Gains {
    type Item = GainIndex;

    const FORMAT: Format = Format {
        channels: 1,
        align: 1,
        bits: 8,
    };

    ghost FORMAT = { gain_format };

    ghost meaning = { gain_item };

    fn read(bytes: &[u8]) -> Result<GainIndex, FaultKind> {
        match *bytes {
            [index] if index <= 127 => Ok(GainIndex::new(i64::from(index))),
            _ => Err(FaultKind::GainOver),
        }
    }
}
