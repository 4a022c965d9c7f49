// The settings that a text makes.
ghost use Rattle.std.specs.Prelude.{◌≡◌};
ghost use Rattle.capi.specs.Texts.{Settles, stopped_at};

use crate::refusal::{Input, Refusal};
use settings::settings::Settings;
use std::alloc::Global;
use text::fault::Wrong;
use text::settings_file::fault::{LineFault, Stop};
use text::settings_file::reader;

// Why a text stops: the first line of it that is wrong or refused.
pub(crate) fn refusal_of(input: Input, fault: LineFault) -> Refusal
    ensures { result ≡ stopped_at input fault.line fault.stop }
{
    let line = fault.line;
    match fault.stop {
        Stop::Refused(refusal) => Refusal::Setting(line, refusal),
        Stop::Wrong(Wrong::Memory) => Refusal::Memory,
        Stop::Wrong(_) => Refusal::WrongLine(input, line),
    }
}

pub(crate) fn settings_of(heap: Global, text: &[u8]) -> Result<Settings, Refusal>
    ensures { Settles text.now result }
{
    reader::read(heap, text).map_err(|fault| refusal_of(Input::Settings, fault))
}
