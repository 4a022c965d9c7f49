// The emulator for C: recordings opened, and the standard chain played, by functions on numbers and bytes.
//
// Proved: for every argument, the status and the report that come back and what the caller's buffer holds then; refused
// calls leave the buffer as it was. What is played is the whole that the formulas define from the settings and the bytes
// of the two recordings. The settings are those that the lines of a text make of fresh ones, in order. What is replayed is
// the line of each call that a text says, with its answer.
#![tactic(auto)]

pub mod opening;
pub mod outcome;
pub mod playing;
pub mod refusal;
pub mod replaying;
pub mod report;
mod texts;
