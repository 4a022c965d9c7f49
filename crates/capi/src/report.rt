// What a call reports beside its status.
ghost use Rattle.std.specs.Prelude.{◌≡◌};
ghost use Rattle.capi.specs.Reports.{outcome_report, refused_report};

use crate::outcome::Outcome;

/// What a call reports beside its status, with the fields of `struct tigwedan_report` in their order. Fields that a call has
/// nothing to report are 0. Numbers throughout: C has no enums of ours.
#[repr(C)]
#[derive(Clone, Copy)]
pub struct Report {
    /// Samples a second, of the signal or of what was opened.
    pub rate: u32,
    /// 1 if the end of the items was met, else 0.
    pub ended: u32,
    /// The number of the fault with which the items end, or 0.
    pub fault: u32,
    /// The number of the input that has the fault, or that is refused: 0 to 255 of a recording, 256 or 257 of a text.
    pub input: u32,
    /// How many items came, or how many bytes were written.
    pub items: u64,
    /// The place of the fault's item in its input, from 0.
    pub item: u64,
    /// Of a refusal: the byte's place, or the line, counted from 1, or how many bytes are needed.
    pub place: u64,
}

// A report of nothing.
const NOTHING: Report = Report {
    rate: 0,
    ended: 0,
    fault: 0,
    input: 0,
    items: 0,
    item: 0,
    place: 0,
};

impl Report {
    pub(crate) fn outcome(rate: u32, outcome: Outcome) -> Report
        ensures { result ≡ outcome_report rate outcome }
    {
        let report = Report {
            rate,
            items: outcome.items,
            ..NOTHING
        };
        match outcome.ending {
            None => report,
            Some(Ok(())) => Report { ended: 1, ..report },
            Some(Err(fault)) => Report {
                ended: 1,
                fault: fault.kind.number() as u32,
                input: fault.input as u32,
                item: fault.item,
                ..report
            },
        }
    }

    pub(crate) fn refused(input: u32, place: u64) -> Report
        ensures { result ≡ refused_report input place }
    {
        Report {
            input,
            place,
            ..NOTHING
        }
    }
}
