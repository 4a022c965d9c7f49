// The settings of the standard chain.
ghost use Rattle.std.specs.Prelude.{◌≡◌};
ghost use Rattle.settings.specs.Changes.{answer, after, after_table, after_receive_gain, offset, balance, with_scale, with_tx_dc, with_tx_imbalance, with_amplifier_bypass, with_paths, with_frequency, with_clock, with_clock_bypass, with_gain, with_seeds, with_lead, with_rx_dc, with_rx_imbalance};
ghost use Rattle.settings.specs.Checks.{checked_scale, checked_frequency, checked_clock, checked_gain, checked_seeds, checked_receive_gain};
ghost use Rattle.settings.specs.Firsts.{PathsAnswer, TableAnswer};
ghost use Rattle.settings.specs.Fresh.{fresh};
ghost use Rattle.settings.specs.Lists.{checked_paths, checked_table};

use crate::checks::{
    checked_clock, checked_frequency, checked_gain, checked_paths, checked_receive_gain,
    checked_scale, checked_seeds, checked_table,
};
use crate::neutral::{FULL_ENTRY, NEUTRAL_PATH, UNIT_GAIN};
use crate::refusal::SettingRefusal;
use stages::amplifier::AmplifierTable;
use stages::clock_offset::ClockOffset;
use stages::dc_offset::Offset;
use stages::frequency_offset::FrequencyOffset;
use stages::gain::Gain;
use stages::imbalance::Balance;
use stages::multipath::Paths;
use stages::noise::Seeds;
use stages::scaling::Scaling;

/// A path as it is given to the settings: a complex coefficient, 8192 for 1, and a delay in samples
/// that is not yet checked.
#[derive(Clone, Copy, PartialEq, Eq, Debug)]
pub struct RawPath {
    /// The coefficient's real part, 8192 for 1.
    pub re: i16,
    /// Its imaginary part.
    pub im: i16,
    /// In samples; 0 to 63 is accepted.
    pub delay: u16,
}

/// The settings of the standard chain: one plain struct, whose fields carry their own ranges. It is
/// changed by the calls below, and a stage that is made from it copies what it needs.
#[derive(Clone, Copy)]
pub struct Settings {
    // Transmitter.
    /// The scale factor, 256 for 1.
    pub scale: Scaling,
    /// The transmitter's DC offset, in working samples' units.
    pub tx_dc: Offset,
    /// The transmitter's I/Q imbalance, 16384 for 1.
    pub tx_imbalance: Balance,
    /// The amplifier's table.
    pub amplifier: AmplifierTable,
    /// The amplifier is left out. A switch beside its table, not an Option: left out, the table
    /// stays.
    pub amplifier_bypass: bool,
    // Channel.
    /// The paths of the multipath channel, 1 to 10.
    pub paths: Paths,
    /// The frequency offset, 2^48 for a turn a sample.
    pub frequency: FrequencyOffset,
    /// The clock offset, in units of 2^-53 of a sample.
    pub clock: ClockOffset,
    /// The clock stage is left out. A switch beside its offset, not an Option: left out, the offset
    /// stays.
    pub clock_bypass: bool,
    /// The channel's gain.
    pub gain: Gain,
    /// The seeds of the noise.
    pub seeds: Seeds,
    // Receiver.
    /// The receiver's gains, of which an index chooses one.
    pub receive_gains: [Gain; 128],
    /// How many items of index 0 stand before the gain indices.
    pub lead: u16,
    /// The receiver's DC offset, in air samples' units.
    pub rx_dc: Offset,
    /// The receiver's I/Q imbalance, 16384 for 1.
    pub rx_imbalance: Balance,
}

// Each call that tests says in `answers` and `leaves` its own test and the field that it changes.
impl Settings {
    /// The settings to begin with: every factor is 1, nothing is offset, the amplifier and the
    /// clock stage are left out.
    pub fn fresh() -> Self
        ensures { result ≡ fresh }
    {
        let dc = Offset { re: 0, im: 0 };
        let balance = Balance {
            a: 16384,
            b: 16384,
            c: 0,
        };
        Settings {
            scale: Scaling { factor: 256 },
            tx_dc: dc,
            tx_imbalance: balance,
            amplifier: AmplifierTable {
                entries: [FULL_ENTRY; 513],
            },
            amplifier_bypass: true,
            paths: Paths {
                places: [NEUTRAL_PATH; 10],
                count: 1,
            },
            frequency: FrequencyOffset { f: 0 },
            clock: ClockOffset { c: 0 },
            clock_bypass: true,
            gain: UNIT_GAIN,
            seeds: Seeds { re: 1, im: 1 },
            receive_gains: [UNIT_GAIN; 128],
            lead: 0,
            rx_dc: dc,
            rx_imbalance: balance,
        }
    }

    /// The scale factor, 256 for 1. Refusal 1: outside 1 to 32767.
    pub fn set_scale(&mut self, factor: u16) -> Result<(), SettingRefusal>
        ensures answers { result ≡ answer (checked_scale factor) }
        ensures leaves { self.new ≡ after (checked_scale factor) with_scale self.old }
    {
        self.scale = checked_scale(factor)?;
        Ok(())
    }

    /// The DC offset of the transmitter, added to each part of a working sample. Never refused.
    pub fn set_tx_dc(&mut self, re: i16, im: i16)
        ensures { self.new ≡ with_tx_dc (offset re im) self.old }
    {
        self.tx_dc = Offset { re, im };
    }

    /// The imbalance of the transmitter: re becomes a × re + c × im and im becomes b × im, 16384
    /// for 1. Never refused.
    pub fn set_tx_imbalance(&mut self, a: i16, b: i16, c: i16)
        ensures { self.new ≡ with_tx_imbalance (balance a b c) self.old }
    {
        self.tx_imbalance = Balance { a, b, c };
    }

    /// The amplifier's table: 513 amplitudes, 0 to 32767, and 513 phases, 65536 a turn. Refusal 4
    /// with an entry: 513 if a list is not 513 long, else the first whose amplitude is over 32767.
    /// Two lists, not entries: one that is too short or too long is refused, and entries could not
    /// show it.
    pub fn set_amplifier_table(
        &mut self,
        amplitudes: &[u16],
        phases: &[i16],
    ) -> Result<(), SettingRefusal>
        ensures answers { result ≡ answer (checked_table amplitudes.now phases.now) }
        ensures leaves { self.new ≡ after_table amplitudes.now phases.now self.old }
        ensures first { TableAnswer amplitudes.now phases.now result }
    {
        self.amplifier = checked_table(amplitudes, phases)?;
        Ok(())
    }

    /// Whether the amplifier is left out. Its table stays. Never refused.
    pub fn set_amplifier_bypass(&mut self, bypass: bool)
        ensures { self.new ≡ with_amplifier_bypass bypass self.old }
    {
        self.amplifier_bypass = bypass;
    }

    /// All paths, in place of those before: coefficients 8192 for 1, delays in samples. Refusal 3
    /// with a path number: 10 if there are not 1 to 10 paths, else the first whose delay is over
    /// 63.
    pub fn set_paths(&mut self, given: &[RawPath]) -> Result<(), SettingRefusal>
        ensures answers { result ≡ answer (checked_paths given.now) }
        ensures leaves { self.new ≡ after (checked_paths given.now) with_paths self.old }
        ensures first { PathsAnswer given.now result }
    {
        self.paths = checked_paths(given)?;
        Ok(())
    }

    /// The frequency offset, in units of 2^-48 of a turn a sample, positive where the receiver's
    /// carrier is the higher. Refusal 7: outside -2^47 to 2^47 - 1.
    pub fn set_frequency(&mut self, f: i64) -> Result<(), SettingRefusal>
        ensures answers { result ≡ answer (checked_frequency f) }
        ensures leaves { self.new ≡ after (checked_frequency f) with_frequency self.old }
    {
        self.frequency = checked_frequency(f)?;
        Ok(())
    }

    /// The clock offset, in units of 2^-53 of a sample, positive where the receiver's clock is the
    /// slower. Refusal 5: beyond 9,007,199,254,740, up or down.
    pub fn set_clock(&mut self, c: i64) -> Result<(), SettingRefusal>
        ensures answers { result ≡ answer (checked_clock c) }
        ensures leaves { self.new ≡ after (checked_clock c) with_clock self.old }
    {
        self.clock = checked_clock(c)?;
        Ok(())
    }

    /// Whether the clock stage is left out. Its offset stays. Never refused.
    pub fn set_clock_bypass(&mut self, bypass: bool)
        ensures { self.new ≡ with_clock_bypass bypass self.old }
    {
        self.clock_bypass = bypass;
    }

    /// The channel's gain, factor × 2^(shift - 8). Refusal 2: shift outside -32 to 18, or factor
    /// outside 128 to 255.
    pub fn set_gain(&mut self, shift: i16, factor: u16) -> Result<(), SettingRefusal>
        ensures answers { result ≡ answer (checked_gain shift factor) }
        ensures leaves { self.new ≡ after (checked_gain shift factor) with_gain self.old }
    {
        self.gain = checked_gain(shift, factor)?;
        Ok(())
    }

    /// The seeds of the noise, one a part. Refusal 6: either is 0.
    pub fn set_seeds(&mut self, re: u32, im: u32) -> Result<(), SettingRefusal>
        ensures answers { result ≡ answer (checked_seeds re im) }
        ensures leaves { self.new ≡ after (checked_seeds re im) with_seeds self.old }
    {
        self.seeds = checked_seeds(re, im)?;
        Ok(())
    }

    /// One of the 128 receive gains, changed where it stands. Refusal 13: index over 127; else 2,
    /// as for the channel's.
    pub fn set_receive_gain(
        &mut self,
        index: u8,
        shift: i16,
        factor: u16,
    ) -> Result<(), SettingRefusal>
        ensures answers { result ≡ answer (checked_receive_gain index shift factor) }
        ensures leaves { self.new ≡ after_receive_gain index shift factor self.old }
    {
        self.receive_gains[index as usize] = checked_receive_gain(index, shift, factor)?;
        Ok(())
    }

    /// How many items of gain index 0 stand before the gain indices, 0 to 65535. Never refused.
    pub fn set_lead(&mut self, items: u16)
        ensures { self.new ≡ with_lead items self.old }
    {
        self.lead = items;
    }

    /// The DC offset of the receiver, added to each part of an air sample. Never refused.
    pub fn set_rx_dc(&mut self, re: i16, im: i16)
        ensures { self.new ≡ with_rx_dc (offset re im) self.old }
    {
        self.rx_dc = Offset { re, im };
    }

    /// The imbalance of the receiver, as the transmitter's. Never refused.
    pub fn set_rx_imbalance(&mut self, a: i16, b: i16, c: i16)
        ensures { self.new ≡ with_rx_imbalance (balance a b c) self.old }
    {
        self.rx_imbalance = Balance { a, b, c };
    }
}
