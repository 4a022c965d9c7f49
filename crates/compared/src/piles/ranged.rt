// Numbers of stages, as the settings accept them.
use anyhow::anyhow;
use settings::refusal::SettingRefusal;
use settings::settings::{RawPath, Settings};
use stages::amplifier::AmplifierTable;
use stages::clock_offset::ClockOffset;
use stages::gain::Gain;
use stages::multipath::Paths;
use stages::noise::Seeds;

// Fresh settings with one of them set.
fn with<F: FnOnce(&mut Settings) -> Result<(), SettingRefusal>>(set: F) -> anyhow::Result<Settings>
    requires { F.IsAlwaysCallable set }
{
    let mut settings = Settings::fresh();
    set(&mut settings).map_err(|refusal| anyhow!("a setting of a pile is refused: {refusal}"))?;
    Ok(settings)
}

pub(crate) fn clock_offset(c: i64) -> anyhow::Result<ClockOffset> {
    Ok(with(|settings| settings.set_clock(c))?.clock)
}

pub(crate) fn paths(given: &[RawPath]) -> anyhow::Result<Paths> {
    Ok(with(|settings| settings.set_paths(given))?.paths)
}

pub(crate) fn gain(shift: i16, factor: u16) -> anyhow::Result<Gain> {
    Ok(with(|settings| settings.set_gain(shift, factor))?.gain)
}

pub(crate) fn seeds(re: u32, im: u32) -> anyhow::Result<Seeds> {
    Ok(with(|settings| settings.set_seeds(re, im))?.seeds)
}

fn set_amplifier_table(settings: &mut Settings) -> Result<(), SettingRefusal> {
    let mut amplitudes = [0; 513];
    let mut phases = [0; 513];
    for q in 0..513u16 {
        amplitudes[usize::from(q)] = 32767 - 50 * q;
        phases[usize::from(q)] = (i32::from(q) * 300 % 65536 - 32768) as i16;
    }
    settings.set_amplifier_table(&amplitudes, &phases)
}

// An amplifier's table whose entry q has the amplitude 32767 - 50 q and the phase (q × 300) mod 65536 - 32768.
pub(crate) fn amplifier_table() -> anyhow::Result<AmplifierTable> {
    Ok(with(set_amplifier_table)?.amplifier)
}

fn set_receive_gains(settings: &mut Settings) -> Result<(), SettingRefusal> {
    for i in 0..128u8 {
        let shift = i16::from(i % 5) - 2;
        settings.set_receive_gain(i, shift, 128 + u16::from(i))?;
    }
    Ok(())
}

// Receive gains that are all different: shift (i mod 5) - 2 and factor 128 + i for index i.
pub(crate) fn receive_gains() -> anyhow::Result<[Gain; 128]> {
    Ok(with(set_receive_gains)?.receive_gains)
}
