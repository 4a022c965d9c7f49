// Why a setting call is refused.
ghost use Rattle.std.specs.Prelude.{◌≡◌, Some};
ghost use Rattle.std.proofs.Common.{rules};
ghost use Rattle.settings.specs.Refusals.{setting_number, setting_text};

use samples::sample::Exact;
use std::fmt;

/// Why a setting call is refused: which of its numbers is outside its range.
#[derive(Clone, Copy, PartialEq, Eq, Debug)]
pub enum SettingRefusal {
    /// The scale factor is outside 1 to 32767.
    ScaleOutside,
    /// A gain's shift is outside -32 to 18, or its factor outside 128 to 255.
    GainOutside,
    /// There are not 1 to 10 paths, reported as path 10; or this is the first path, 0 to 9, with a
    /// delay over 63.
    PathOutside { path: u8 },
    /// A list is not 513 long, reported as entry 513; or this is the first entry, 0 to 512, with an
    /// amplitude over 32767.
    EntryOutside { entry: u16 },
    /// The clock offset is beyond 9,007,199,254,740, up or down.
    ClockOutside,
    /// A noise seed is 0.
    SeedZero,
    /// The frequency offset is outside -2^47 to 2^47 - 1.
    FrequencyOutside,
    /// The index of a receive gain is over 127.
    IndexOver,
}

impl SettingRefusal {
    /// The number by which the refusal is known: 1 to 7, or 13.
    pub fn number(self) -> u8
        ensures { result ≡ setting_number self }
    {
        match self {
            SettingRefusal::ScaleOutside => 1,
            SettingRefusal::GainOutside => 2,
            SettingRefusal::PathOutside { path: _ } => 3,
            SettingRefusal::EntryOutside { entry: _ } => 4,
            SettingRefusal::ClockOutside => 5,
            SettingRefusal::SeedZero => 6,
            SettingRefusal::FrequencyOutside => 7,
            SettingRefusal::IndexOver => 13,
        }
    }
}

impl Exact for SettingRefusal {
    ghost exact = { Prim.search rules };
}

/// Which numbers are accepted, and of a list the path or entry that is not.
impl fmt::Display for SettingRefusal {
    ghost output = { λ refusal. Some (setting_text refusal) };

    fn fmt<W: fmt::Write>(&self, f: &mut fmt::Formatter<W>) -> fmt::Result {
        match *self {
            SettingRefusal::ScaleOutside => write!(f, "the scale factor must be 1 to 32767"),
            SettingRefusal::GainOutside => write!(
                f,
                "a gain's shift must be -32 to 18 and its factor 128 to 255"
            ),
            SettingRefusal::PathOutside { path: 10 } => write!(f, "there must be 1 to 10 paths"),
            SettingRefusal::PathOutside { path } => write!(
                f,
                "the delay of path {path} must be 0 to 63"
            ),
            SettingRefusal::EntryOutside { entry: 513 } => {
                write!(
                    f,
                    "the amplifier's table must have 513 amplitudes and 513 phases"
                )
            },
            SettingRefusal::EntryOutside { entry } => write!(
                f,
                "the amplitude of entry {entry} must be 0 to 32767"
            ),
            SettingRefusal::ClockOutside => {
                write!(
                    f,
                    "the clock offset must be -9007199254740 to 9007199254740"
                )
            },
            SettingRefusal::SeedZero => write!(f, "a noise seed must be 1 to 4294967295"),
            SettingRefusal::FrequencyOutside => {
                write!(
                    f,
                    "the frequency offset must be -140737488355328 to 140737488355327"
                )
            },
            SettingRefusal::IndexOver => write!(f, "the index of a receive gain must be 0 to 127"),
        }
    }
}
