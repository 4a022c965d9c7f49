// The standard chain: transmitter, channel and receiver, made from the settings, over any source of signal samples and
// any source of gain indices.
//
// Proved: its whole is the composition of all the stages' formulas, from the settings and the two wholes below, and it
// keeps the contract of every source through every call.
#![tactic(auto)]

pub mod playing;
pub mod standard;
