// The command `copy`: a signal recording, read and written anew.
ghost use Rattle.std.specs.Prelude.{◌≡◌, IfOk, IfErr, OnOk, true, false, None};
ghost use Rattle.recordings.specs.Opening.{signal_opening};
ghost use Rattle.program.specs.Names.{Clears, Spares};
ghost use Rattle.program.specs.Outcomes.{AcceptsOwn, Copies, KeepsBytes, copied_files};
ghost use Rattle.program.specs.Refusals.{is_late, refusal_in, refusal_of};

use crate::check::count;
use crate::failure::Failure;
use crate::host::Host;
use crate::names::{clear, file_name, files_for, spare};
use crate::printing::Refused;
use crate::written::{Written, write_files};
use recordings::layout::Signal;
use recordings::pair::Input;
use recordings::recording::Recording;
use std::alloc::Global;

/// What `copy` did: where the first and the last file stand, the rate, and what was written.
#[derive(Debug, Drop)]
pub struct Copied<'a> {
    /// The name of the first file.
    pub to: &'a str,
    /// The name of the last file.
    pub last: String,
    /// In samples a second.
    pub rate: u32,
    /// What the files hold.
    pub written: Written,
}

/// Writes the samples in the bytes of the signal recording `from`, up to its end or its fault, to the file `to` and further
/// ones. A recording of the shape that is written here, up to 65,536 bytes long, comes out byte for byte the same. A recording
/// that does not open is refused, and so is a run that would write over it, or over what is no recording; then nothing is
/// written.
pub fn copy<'a, H: Host>(
    heap: Global,
    host: &mut H,
    from: &'a str,
    bytes: &[u8],
    to: &'a str,
) -> Result<Copied<'a>, Failure<'a>>
    ensures copies { IfOk result (Copies (signal_opening 0 bytes.now) to.now
        (H.written host.old) (H.written host.new)) }
    ensures unchanged { OnOk result (KeepsBytes bytes.now to.now
        (H.written host.old) (H.written host.new)) }
    ensures accepted { IfErr result (AcceptsOwn bytes.now) }
    ensures spares { OnOk result (Spares (H.may_say_same host.old) from.now to.now
        (copied_files (signal_opening 0 bytes.now))) }
    ensures clears { OnOk result (Clears (H.may_say_other host.old) to.now
        (copied_files (signal_opening 0 bytes.now))) }
    ensures refuses { IfErr result (λ e. refusal_in e
        ≡ refusal_of from.now (signal_opening 0 bytes.now)) }
    ensures keeps { IfErr result (λ e. is_late e ≡ false
        → H.written host.new ≡ H.written host.old) }
{
    match Recording::<Signal>::open(bytes, Input::Signal.number()) {
        Ok(mut recording) => {
            let rate = recording.rate();
            let items = count(&mut recording).items;
            // A recording has never more than are counted.
            if items == u64::MAX {
                return Err(Failure::TooManyFiles);
            }
            let files = files_for(u128::from(items));
            spare(heap, host, from, to, files)?;
            clear(heap, host, to, files)?;
            let written = write_files(heap, host, recording, to, rate)?;
            let last = file_name(heap, to, written.files)?;
            Ok(Copied {
                to,
                last,
                rate,
                written,
            })
        }
        Err(refusal) => Err(Failure::Refused(from, Refused(refusal))),
    }
}
