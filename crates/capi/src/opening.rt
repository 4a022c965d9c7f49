// Opening recordings.
ghost use Rattle.std.specs.Prelude.{◌≡◌};
ghost use Rattle.recordings.specs.Opening.{opening};
ghost use Rattle.recordings.specs.Pair.{input_number};
ghost use Rattle.capi.specs.Outcomes.{examined, open_answer};
ghost use Rattle.capi.specs.Reports.{status, report_of};

use crate::outcome::count;
use crate::refusal::{Refusal, conclude};
use crate::report::Report;
use recordings::layout::{Gains, Layout, Signal};
use recordings::pair::Input;
use recordings::recording::Recording;

// Opens the bytes as a recording of the kind L, and counts what it holds.
fn examine<'a, L: Layout>(bytes: &'a [u8], input: Input) -> Result<Report, Refusal>
    ensures { result ≡ examined input (opening L.FORMAT L.meaning (input_number input) bytes.now) }
{
    let recording: Recording<'a, L> = Recording::open(bytes, input.number()).map_err(
        |refusal| Refusal::Opening(input, refusal),
    )?;
    let rate = recording.rate();
    Ok(Report::outcome(rate, count(recording)))
}

// The kinds have the numbers of their inputs. Numbers throughout: C has no enums of ours.
fn open(kind: u32, bytes: &[u8]) -> Result<Report, Refusal>
    ensures { result ≡ open_answer kind bytes.now }
{
    match kind {
        0 => examine::<Signal>(bytes, Input::Signal),
        1 => examine::<Gains>(bytes, Input::Gain),
        _ => Err(Refusal::UnknownKind),
    }
}

/// Opens the bytes as a signal recording (kind 0) or a gain recording (kind 1), and reads it to its end. The report has the
/// rate, the number of items before the first that is faulty, and its fault. Refused for an unknown kind (64), and for
/// bytes that do not open (8 to 11, with the byte's place).
#[unsafe(no_mangle)]
pub extern "C" fn tigwedan_open(kind: u32, bytes: &[u8], report: &mut Report) -> u32
    ensures status { result ≡ status (open_answer kind bytes.now) }
    ensures report { report.new ≡ report_of (open_answer kind bytes.now) }
{
    conclude(open(kind, bytes), report)
}
