// Random inputs and settings.
use crate::runs::random::Random;
use anyhow::anyhow;
use recordings::pair::Input;
use samples::gain_index::GainIndex;
use samples::kinds::ConverterSample;
use samples::sample::Sample;
use settings::refusal::SettingRefusal;
use settings::settings::{RawPath, Settings};
use sources::fault::{Ending, Fault, FaultKind};
use sources::whole::Whole;
use std::alloc::{AllocError, Global};

// Finished, or a fault at the place behind the items.
fn random_ending(random: &mut Random, kind: FaultKind, input: Input, items: usize) -> Ending {
    if random.coin() {
        Ok(())
    } else {
        Err(Fault {
            kind,
            input: input.number(),
            item: items as u64,
        })
    }
}

// Items of an input, each as the function makes it, and their ending. The allocator and the numbers are lent side by side: a
// struct of both would only be taken apart again. A `for`, as `collect` asks more of the function than it knows of itself.
fn random_whole<T: Copy, F: Fn(&mut Random) -> T + Drop>(
    heap: Global,
    random: &mut Random,
    kind: FaultKind,
    input: Input,
    item: F,
) -> Result<Whole<T, Ending>, AllocError>
    requires { F.IsAlwaysCallable item }
{
    let mut items = Vec::new(heap);
    for _ in 0..random.below(300) {
        items.push(item(random))?;
    }
    let ending = random_ending(random, kind, input, items.len());
    Ok(Whole { items, ending })
}

pub(crate) fn random_signal(
    heap: Global,
    random: &mut Random,
) -> Result<Whole<ConverterSample, Ending>, AllocError> {
    random_whole(heap, random, FaultKind::LowBits, Input::Signal, |random| {
        ConverterSample::new(random.within(-2048, 4096), random.within(-2048, 4096))
    })
}

pub(crate) fn random_gains(
    heap: Global,
    random: &mut Random,
) -> Result<Whole<GainIndex, Ending>, AllocError> {
    random_whole(heap, random, FaultKind::GainOver, Input::Gain, |random| {
        GainIndex::new(random.within(0, 128))
    })
}

fn random_path(random: &mut Random) -> RawPath {
    let delay = (random.number() & 63) as u16;
    RawPath {
        re: random.word(),
        im: random.word(),
        delay,
    }
}

fn random_paths(heap: Global, random: &mut Random) -> Result<Vec<RawPath>, AllocError> {
    (0..random.below(10).saturating_add(1))
        .map(|_| random_path(random))
        .collect(heap)
}

fn set_levels(settings: &mut Settings, random: &mut Random) -> Result<(), SettingRefusal> {
    settings.set_scale((random.below(8000) & 0x3fff) as u16 + 1)?;
    settings.set_gain(
        (random.number() & 7) as i16,
        (random.number() & 127) as u16 + 128,
    )?;
    for _ in 0..8 {
        let index = (random.number() & 127) as u8;
        let shift = (random.number() & 7) as i16 - 4;
        settings.set_receive_gain(index, shift, (random.number() & 127) as u16 + 128)?;
    }
    settings.set_rx_dc(random.word(), random.word());
    settings.set_tx_dc(random.word(), random.word());
    Ok(())
}

// Offsets of half of the greatest, up and down, and seeds that are not 0.
fn set_offsets(settings: &mut Settings, random: &mut Random) -> Result<(), SettingRefusal> {
    settings.set_frequency(
        random
            .within(-0x4000_0000, 0x8000_0000)
            .saturating_mul(0x1_0000),
    )?;
    settings.set_clock(
        random
            .within(-0x4000_0000, 0x8000_0000)
            .saturating_mul(4096),
    )?;
    settings.set_clock_bypass(random.below(4) == 0);
    settings.set_lead((random.number() & 15) as u16);
    settings.set_seeds(random.below(0xffff_ffff) | 1, random.below(0xffff_ffff) | 1)
}

fn refused(refusal: SettingRefusal) -> anyhow::Error {
    anyhow!("a random setting is refused: {refusal}")
}

// Random settings; what they do not name is fresh.
pub(crate) fn random_settings(heap: Global, random: &mut Random) -> anyhow::Result<Settings> {
    let mut settings = Settings::fresh();
    let paths = random_paths(heap, random)?;
    settings.set_paths(paths.as_slice()).map_err(refused)?;
    set_levels(&mut settings, random).map_err(refused)?;
    set_offsets(&mut settings, random).map_err(refused)?;
    Ok(settings)
}
