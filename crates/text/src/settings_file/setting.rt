// One setting, as a line of the file gives it.
ghost use Rattle.std.specs.Prelude.{◌≡◌};
ghost use Rattle.text.specs.Settings.{answered, changed};

use settings::refusal::SettingRefusal;
use settings::settings::{RawPath, Settings};

/// One setting, as a line of the file gives it: the numbers of a setting call, not yet tested for
/// their range.
#[derive(Drop)]
pub enum Setting {
    /// `scale`: 256 for 1.
    Scale(u16),
    /// `tx_dc`: in working samples' units.
    TxDc {
        re: i16,
        im: i16,
    },
    /// `tx_imbalance`: 16384 for 1.
    TxImbalance {
        a: i16,
        b: i16,
        c: i16,
    },
    /// Two lists, not a list of pairs: the setting call takes them so.
    AmplifierTable {
        amplitudes: Vec<u16>,
        phases: Vec<i16>,
    },
    /// `amplifier_bypass`: whether the amplifier is left out.
    AmplifierBypass(bool),
    /// `paths`: one path or more.
    Paths(Vec<RawPath>),
    /// `frequency`: 2^48 for a turn a sample.
    Frequency(i64),
    /// `clock`: in units of 2^-53 of a sample.
    Clock(i64),
    /// `clock_bypass`: whether the clock stage is left out.
    ClockBypass(bool),
    /// `gain`: factor × 2^(shift - 8).
    Gain {
        shift: i16,
        factor: u16,
    },
    /// `seeds`: of both parts' noise.
    Seeds {
        re: u32,
        im: u32,
    },
    /// `receive_gain`: the gain of an index.
    ReceiveGain {
        index: u8,
        shift: i16,
        factor: u16,
    },
    /// `lead`: in samples.
    Lead(u16),
    /// `rx_dc`: in air samples' units.
    RxDc {
        re: i16,
        im: i16,
    },
    /// `rx_imbalance`: 16384 for 1.
    RxImbalance {
        a: i16,
        b: i16,
        c: i16,
    },
}

impl Setting {
    /// Puts the setting into the settings, or answers why it is refused and leaves them as they
    /// were.
    pub fn carry_out(&self, settings: &mut Settings) -> Result<(), SettingRefusal>
        ensures answers { result ≡ answered self.now }
        ensures leaves { settings.new ≡ changed self.now settings.old }
    {
        match self {
            Setting::Scale(factor) => settings.set_scale(*factor),
            Setting::TxDc { re, im } => Ok(settings.set_tx_dc(*re, *im)),
            Setting::TxImbalance { a, b, c } => Ok(settings.set_tx_imbalance(*a, *b, *c)),
            Setting::AmplifierTable { amplitudes, phases } => {
                settings.set_amplifier_table(amplitudes.as_slice(), phases.as_slice())
            }
            Setting::AmplifierBypass(on) => Ok(settings.set_amplifier_bypass(*on)),
            Setting::Paths(paths) => settings.set_paths(paths.as_slice()),
            Setting::Frequency(f) => settings.set_frequency(*f),
            Setting::Clock(c) => settings.set_clock(*c),
            Setting::ClockBypass(on) => Ok(settings.set_clock_bypass(*on)),
            Setting::Gain { shift, factor } => settings.set_gain(*shift, *factor),
            Setting::Seeds { re, im } => settings.set_seeds(*re, *im),
            Setting::ReceiveGain {
                index,
                shift,
                factor,
            } => { settings.set_receive_gain(*index, *shift, *factor) }
            Setting::Lead(items) => Ok(settings.set_lead(*items)),
            Setting::RxDc { re, im } => Ok(settings.set_rx_dc(*re, *im)),
            Setting::RxImbalance { a, b, c } => Ok(settings.set_rx_imbalance(*a, *b, *c)),
        }
    }
}
