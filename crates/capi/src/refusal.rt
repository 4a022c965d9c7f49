// Why a call is refused.
ghost use Rattle.std.specs.Prelude.{◌≡◌};
ghost use Rattle.capi.specs.declared.refusal.Refusal.TheVariants.{Memory};
ghost use Rattle.capi.specs.Reports.{input_number, opening_of, refusal_number, refusal_report, status, report_of};

use crate::report::Report;
use recordings::pair;
use recordings::refusal::OpeningRefusal;
use settings::refusal::SettingRefusal;
use std::alloc::AllocError;

/// What is handed in: a recording of the link, or a text.
#[derive(Clone, Copy)]
pub enum Input {
    /// The bytes of one of the two recordings.
    Recording(pair::Input),
    /// The text of settings, one a line.
    Settings,
    /// The text of calls, one a line.
    Calls,
}

impl Input {
    /// The number by which a report names it: of a recording that by which its faults name it, 0 to 255; of a text 256
    /// or 257, since sources that others write may use any number up to 255.
    pub fn number(self) -> u32
        ensures { result ≡ input_number self }
    {
        match self {
            Input::Recording(recording) => recording.number() as u32,
            Input::Settings => 256,
            Input::Calls => 257,
        }
    }
}

/// Why a call is refused. Lines are counted from 1.
#[derive(Clone, Copy)]
pub enum Refusal {
    /// The bytes of a recording do not open.
    Opening(pair::Input, OpeningRefusal),
    /// A line of the settings has numbers that are refused.
    Setting(u64, SettingRefusal),
    /// There is no such kind of recording.
    UnknownKind,
    /// A line is no setting, or no call.
    WrongLine(Input, u64),
    /// There is not enough memory.
    Memory,
    /// The buffer is too short for what is to be written; how many bytes it needs.
    Room(u64),
}

// The report's input where none is meant.
const NO_INPUT: u32 = 0;

impl Refusal {
    /// Its status: 1 to 13 of a setting or a recording, 64 to 67 of the call itself.
    pub fn number(self) -> u32
        ensures { result ≡ refusal_number self }
    {
        match self {
            Refusal::Opening(_, refusal) => refusal.number() as u32,
            Refusal::Setting(_, refusal) => refusal.number() as u32,
            Refusal::UnknownKind => 64,
            Refusal::WrongLine(_, _) => 65,
            Refusal::Memory => 66,
            Refusal::Room(_) => 67,
        }
    }

    /// The report that goes with it: the number of the input, and the place in it; every other field is 0. The input is 0
    /// also where none is meant.
    pub fn report(self) -> Report
        ensures { result ≡ refusal_report self }
    {
        match self {
            Refusal::Opening(recording, refusal) => {
                Report::refused(Input::Recording(recording).number(), refusal.place() as u64)
            }
            Refusal::Setting(line, _) => Report::refused(Input::Settings.number(), line),
            Refusal::WrongLine(input, line) => Report::refused(input.number(), line),
            Refusal::Room(needed) => Report::refused(NO_INPUT, needed),
            Refusal::UnknownKind => Report::refused(NO_INPUT, 0),
            Refusal::Memory => Report::refused(NO_INPUT, 0),
        }
    }
}

impl From<(pair::Input, OpeningRefusal)> for Refusal {
    ghost from_gives = { λ refused r. r ≡ opening_of refused };

    fn from(refused: (pair::Input, OpeningRefusal)) -> Refusal {
        let (recording, refusal) = refused;
        Refusal::Opening(recording, refusal)
    }
}

impl From<AllocError> for Refusal {
    ghost from_gives = { λ _ r. r ≡ Memory };

    fn from(_error: AllocError) -> Refusal {
        Refusal::Memory
    }
}

// Puts the report where the caller wants it, and answers the status.
pub(crate) fn conclude(answer: Result<Report, Refusal>, report: &mut Report) -> u32
    ensures status { result ≡ status answer }
    ensures report { report.new ≡ report_of answer }
{
    match answer {
        Ok(done) => {
            *report = done;
            0
        }
        Err(refusal) => {
            *report = refusal.report();
            refusal.number()
        }
    }
}
