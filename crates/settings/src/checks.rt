// From plain numbers to the records that carry their ranges, or to a refusal. Functions, not
// TryFrom: most take several numbers, and the records stand in the crates below.
ghost use Rattle.std.specs.Prelude.{◌≡◌, ◌≤◌, OnOk};
ghost use Rattle.settings.specs.Checks.{checked_scale, checked_gain, checked_clock, checked_frequency, checked_seeds, checked_receive_gain};
ghost use Rattle.settings.specs.Lists.{checked_paths, checked_table};

use crate::neutral::{FULL_ENTRY, NEUTRAL_PATH};
use crate::refusal::SettingRefusal;
use crate::settings::RawPath;
use stages::amplifier::{AmplifierTable, Entry};
use stages::clock_offset::ClockOffset;
use stages::frequency_offset::FrequencyOffset;
use stages::gain::Gain;
use stages::multipath::{Path, Paths};
use stages::noise::Seeds;
use stages::scaling::Scaling;

// 1 to 32767.
pub(crate) fn checked_scale(factor: u16) -> Result<Scaling, SettingRefusal>
    ensures { result ≡ checked_scale factor }
{
    if !(1..=32767).contains(&factor) {
        return Err(SettingRefusal::ScaleOutside);
    }
    Ok(Scaling { factor })
}

// Shift -32 to 18, factor 128 to 255.
pub(crate) fn checked_gain(shift: i16, factor: u16) -> Result<Gain, SettingRefusal>
    ensures { result ≡ checked_gain shift factor }
{
    if !(-32..=18).contains(&shift) || !(128..=255).contains(&factor) {
        return Err(SettingRefusal::GainOutside);
    }
    Ok(Gain {
        shift: shift as i8,
        factor: factor as u8,
    })
}

// A gain for the index, which is 0 to 127.
pub(crate) fn checked_receive_gain(
    index: u8,
    shift: i16,
    factor: u16,
) -> Result<Gain, SettingRefusal>
    ensures value { result ≡ checked_receive_gain index shift factor }
    ensures within { OnOk result (index ≤ 127) }
{
    if index > 127 {
        return Err(SettingRefusal::IndexOver);
    }
    checked_gain(shift, factor)
}

// At most a thousandth of 2^53, up or down.
pub(crate) fn checked_clock(c: i64) -> Result<ClockOffset, SettingRefusal>
    ensures { result ≡ checked_clock c }
{
    if !(-9_007_199_254_740..=9_007_199_254_740).contains(&c) {
        return Err(SettingRefusal::ClockOutside);
    }
    Ok(ClockOffset { c })
}

// A signed number of 48 bits.
pub(crate) fn checked_frequency(f: i64) -> Result<FrequencyOffset, SettingRefusal>
    ensures { result ≡ checked_frequency f }
{
    if !(-140_737_488_355_328..=140_737_488_355_327).contains(&f) {
        return Err(SettingRefusal::FrequencyOutside);
    }
    Ok(FrequencyOffset { f })
}

// Not 0.
pub(crate) fn checked_seeds(re: u32, im: u32) -> Result<Seeds, SettingRefusal>
    ensures { result ≡ checked_seeds re im }
{
    if re == 0 || im == 0 {
        return Err(SettingRefusal::SeedZero);
    }
    Ok(Seeds { re, im })
}

// 1 to 10 paths, each with a delay of at most 63. Places that are not in use hold neutral paths, so
// that settings with the same paths are the same.
pub(crate) fn checked_paths(given: &[RawPath]) -> Result<Paths, SettingRefusal>
    ensures { result ≡ checked_paths given.now }
{
    let count = given.len();
    if !(1..=10).contains(&count) {
        return Err(SettingRefusal::PathOutside { path: 10 });
    }
    let mut places = [NEUTRAL_PATH; 10];
    // The place is counted, since a refusal reports it.
    for (i, p) in given.iter().enumerate() {
        if p.delay > 63 {
            return Err(SettingRefusal::PathOutside { path: i as u8 });
        }
        places[i] = Path {
            re: p.re,
            im: p.im,
            delay: p.delay as u8,
        };
    }
    Ok(Paths { places, count })
}

// 513 amplitudes of at most 32767, and 513 phases. Two lists, not entries: one that is too short or
// too long is refused.
pub(crate) fn checked_table(
    amplitudes: &[u16],
    phases: &[i16],
) -> Result<AmplifierTable, SettingRefusal>
    ensures { result ≡ checked_table amplitudes.now phases.now }
{
    if amplitudes.len() != 513 || phases.len() != 513 {
        return Err(SettingRefusal::EntryOutside { entry: 513 });
    }
    let mut entries = [FULL_ENTRY; 513];
    // The place is counted, since a refusal reports it; the phase is taken from there too.
    for (i, amplitude) in amplitudes.iter().enumerate() {
        if *amplitude > 32767 {
            return Err(SettingRefusal::EntryOutside { entry: i as u16 });
        }
        entries[i] = Entry {
            amplitude: *amplitude,
            phase: phases[i],
        };
    }
    Ok(AmplifierTable { entries })
}
