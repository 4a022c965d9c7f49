// The forms of the lines: which word names which setting, and which numbers stand behind it.
ghost use Rattle.std.specs.Prelude.{MatchResult};
ghost use Rattle.text.specs.Faults.{NoRows};
ghost use Rattle.text.specs.Taking.{numbers_left};
ghost use Rattle.text.specs.Forms.{Says, Complains, SpellsTable, SpellsPaths, table_kinds, path_kinds};

use crate::entries::Form;
use crate::entry::Entry;
use crate::fault::Wrong;
use crate::number::Switch;
use crate::numbers::Numbers;
use crate::settings_file::setting::Setting;
use settings::settings::RawPath;

// A `for` in both: only so it is known that without rows no memory is taken.
fn table(numbers: Numbers<'_>) -> Result<Setting, Wrong>
    ensures { MatchResult result
        (SpellsTable (numbers_left numbers.entry))
        (NoRows numbers.entry.form.now table_kinds (numbers_left numbers.entry)) }
{
    let rows: Vec<(u16, i16)> = numbers.rows()?;
    let heap = *rows.allocator();
    let mut amplitudes = Vec::new(heap);
    let mut phases = Vec::new(heap);
    for row in &rows {
        amplitudes.push(row.0)?;
        phases.push(row.1)?;
    }
    Ok(Setting::AmplifierTable { amplitudes, phases })
}

fn paths(numbers: Numbers<'_>) -> Result<Setting, Wrong>
    ensures { MatchResult result
        (SpellsPaths (numbers_left numbers.entry))
        (NoRows numbers.entry.form.now path_kinds (numbers_left numbers.entry)) }
{
    let rows: Vec<(i16, i16, u16)> = numbers.rows()?;
    let heap = *rows.allocator();
    let mut paths = Vec::new(heap);
    for row in &rows {
        paths.push(RawPath {
            re: row.0,
            im: row.1,
            delay: row.2,
        })?;
    }
    Ok(Setting::Paths(paths))
}

impl Form for Setting {
    ghost Says = { Says };

    ghost Complains = { Complains };

    // Over forty lines: one arm a word, in the order of the forms.
    fn read(word: &str, line: Entry<'_>) -> Result<Setting, Wrong> {
        match word {
            "scale" => line.form("scale f").row().map(|(f,)| Setting::Scale(f)),
            "tx_dc" => {
                let (re, im) = line.form("tx_dc re im").row()?;
                Ok(Setting::TxDc { re, im })
            }
            "tx_imbalance" => {
                let (a, b, c) = line.form("tx_imbalance a b c").row()?;
                Ok(Setting::TxImbalance { a, b, c })
            }
            "amplifier_table" => table(line.form("amplifier_table A0 phase0 A1 phase1 ..")),
            "amplifier_bypass" => line
                .form("amplifier_bypass 0|1")
                .row()
                .map(|(Switch(on),)| Setting::AmplifierBypass(on)),
            "paths" => paths(line.form("paths re im delay re im delay ..")),
            "frequency" => line
                .form("frequency F")
                .row()
                .map(|(f,)| Setting::Frequency(f)),
            "clock" => line.form("clock c").row().map(|(c,)| Setting::Clock(c)),
            "clock_bypass" => line
                .form("clock_bypass 0|1")
                .row()
                .map(|(Switch(on),)| Setting::ClockBypass(on)),
            "gain" => line
                .form("gain shift factor")
                .row()
                .map(|(shift, factor)| Setting::Gain { shift, factor }),
            "seeds" => line
                .form("seeds re im")
                .row()
                .map(|(re, im)| Setting::Seeds { re, im }),
            "receive_gain" => line.form("receive_gain index shift factor").row().map(|(
                index,
                shift,
                factor,
            )| Setting::ReceiveGain {
                index,
                shift,
                factor,
            }),
            "lead" => line.form("lead d").row().map(|(d,)| Setting::Lead(d)),
            "rx_dc" => {
                let (re, im) = line.form("rx_dc re im").row()?;
                Ok(Setting::RxDc { re, im })
            }
            "rx_imbalance" => {
                let (a, b, c) = line.form("rx_imbalance a b c").row()?;
                Ok(Setting::RxImbalance { a, b, c })
            }
            _ => Err(line.unknown(word, "setting")),
        }
    }
}
