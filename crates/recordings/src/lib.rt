// Opens WAVE recordings of 12-bit I/Q samples and of receive gains, and reads them as sources.
//
// Proved, for every byte string: opening answers the rate and everything that the bytes hold, or a refusal with the place of
// a byte. The tests are made in byte order, and the first that fails is the refusal. An opened recording is a source of
// exactly those items, and ends with the fault of the first faulty one. Both recordings of a link are opened by one call.
#![tactic(auto)]

pub mod chunks;
pub mod format;
pub mod layout;
pub mod pair;
pub mod recording;
pub mod refusal;
