// Reading a settings file.
ghost use Rattle.std.specs.Prelude.{MatchResult};
ghost use Rattle.text.specs.Entries.{entries_of};
ghost use Rattle.settings.specs.Fresh.{fresh};
ghost use Rattle.text.specs.Files.{Makes, Puts, Stops};

use crate::entries::Entries;
use crate::numbered::Numbered;
use crate::settings_file::fault::{LineFault, Stop};
use crate::settings_file::setting::Setting;
use settings::settings::Settings;
use std::alloc::Global;

// Carries the setting out, or reports its line.
fn put(setting: Numbered<Setting>, made: &mut Settings) -> Result<(), LineFault>
    ensures { Puts setting made.old result made.new }
{
    setting.held.carry_out(made).map_err(|refusal| LineFault {
        line: setting.line,
        stop: Stop::Refused(refusal),
    })
}

/// What the settings of the file make of fresh ones, in order. The first line that is wrong or
/// refused stops it. Memory is taken for the rows of a table or of paths, and to quote a word that
/// is wrong.
pub fn read(heap: Global, bytes: &[u8]) -> Result<Settings, LineFault>
    ensures { MatchResult result
        (Makes (entries_of bytes.now) fresh)
        (Stops (entries_of bytes.now)) }
{
    let mut made = Settings::fresh();
    for entry in Entries::<Setting>::of(heap, bytes) {
        put(entry?, &mut made)?;
    }
    Ok(made)
}
