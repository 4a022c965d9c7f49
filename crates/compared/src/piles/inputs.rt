// Recordings made in memory: sawtooth signals and gain indices, whole or with one item faulty.
use anyhow::anyhow;
use recorder::session::write;
use recorder::started::HEADER;
use recordings::layout::{Gains, Signal};
use recordings::pair::Input;
use recordings::recording::Recording;
use samples::kinds::ConverterSample;
use samples::sample::Sample;
use std::alloc::Global;

const RATE: u32 = 8000;

// How many items a recording has, and which of them is faulty.
#[derive(Clone, Copy)]
pub(crate) struct Take {
    items: u16,
    faulty: Option<u16>,
}

impl Take {
    pub(crate) fn whole(items: u16) -> Take {
        Take {
            items,
            faulty: None,
        }
    }

    pub(crate) fn faulty(items: u16, item: u16) -> Take {
        Take {
            items,
            faulty: Some(item),
        }
    }
}

fn signal_item(k: u16) -> ConverterSample {
    let k = i64::from(k);
    ConverterSample::new(k * 37 % 4001 - 2000, k * 91 % 3001 - 1500)
}

// The bytes of a signal recording. A faulty sample has a lowest bit that is not 0.
pub(crate) fn signal_bytes(heap: Global, take: Take) -> anyhow::Result<Vec<u8>> {
    let samples = (0..take.items)
        .map(signal_item)
        .collect::<Vec<ConverterSample>>(heap)?;
    let mut bytes = vec![in heap; 0; HEADER + 4 * usize::from(take.items)]?;
    write(samples.as_slice(), RATE, bytes.as_mut_slice()).map_err(|refusal| anyhow!(
        "a signal is not recorded: {refusal}"
    ))?;
    if let Some(item) = take.faulty {
        if let Some(low) = bytes.get_mut(HEADER + 4 * usize::from(item) + 2) {
            *low |= 1;
        }
    }
    Ok(bytes)
}

// Index (k × 7) mod 128 for item k. A faulty index is 200.
fn gain_item(take: Take, k: u16) -> u8 {
    if take.faulty == Some(k) {
        200
    } else {
        (u32::from(k) * 7 % 128) as u8
    }
}

// The bytes of a gain recording.
pub(crate) fn gain_bytes(heap: Global, take: Take) -> anyhow::Result<Vec<u8>> {
    let size = u32::from(take.items);
    let pad = size % 2;
    let mut bytes = Vec::new(heap);
    bytes.extend_from_slice(b"RIFF")?;
    bytes.extend_from_slice(&(36 + size + pad).to_le_bytes())?;
    bytes.extend_from_slice(b"WAVEfmt \x10\0\0\0\x01\0\x01\0")?;
    bytes.extend_from_slice(&RATE.to_le_bytes())?;
    bytes.extend_from_slice(&RATE.to_le_bytes())?;
    bytes.extend_from_slice(b"\x01\0\x08\0data")?;
    bytes.extend_from_slice(&size.to_le_bytes())?;
    bytes.extend((0..take.items).map(|k| gain_item(take, k)))?;
    if pad > 0 {
        bytes.push(0)?;
    }
    Ok(bytes)
}

pub(crate) fn open_signal(bytes: &[u8]) -> anyhow::Result<Recording<'_, Signal>> {
    Recording::open(bytes, Input::Signal.number()).map_err(|refusal| anyhow!(
        "a signal recording does not open: {refusal}"
    ))
}

pub(crate) fn open_gains(bytes: &[u8]) -> anyhow::Result<Recording<'_, Gains>> {
    Recording::open(bytes, Input::Gain.number()).map_err(|refusal| anyhow!(
        "a gain recording does not open: {refusal}"
    ))
}
