// Tigwedan: a radio channel emulator. It plays a recorded signal through a modelled radio link.
//
// The library `program` does the work; here are the machine's words, its files and its outputs.
#![tactic(auto)]

#[cfg(test)]
mod tests;

use program::arguments::words;
use program::host::Disk;
use program::report::{Outcome, print, status};
use program::run::run;
use std::process::ExitCode;

// Prints what came of a run, and answers its status.
fn close(rt: &HostRuntime, outcome: &Outcome<'_>) -> u8 {
    match print(rt.alloc(), &Disk(rt), outcome) {
        Ok(()) => status(outcome),
        Err(error) => {
            let _ = eprintln!(rt; "tigwedan: the output cannot be written: {error}");
            1
        }
    }
}

// Status 1 comes with its reason in words.
fn main(rt: HostRuntime) -> ExitCode {
    let status = match words(rt.alloc(), &rt) {
        Ok(words) => close(&rt, &run(rt.alloc(), &mut Disk(&rt), words.as_slice())),
        Err(failure) => close(&rt, &Err(failure)),
    };
    ExitCode::from(status)
}
