// Writing signal recordings.
//
// Proved: what every byte of a buffer is after each call, refused ones too; that a started recording is finished or
// abandoned; and the round trips: what was put in is what opening hands out, and a recording of the shape that we write
// keeps every byte when it is rewritten.
#![tactic(auto)]

mod encoding;
pub mod refusal;
pub mod session;
pub mod started;
