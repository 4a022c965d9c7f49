// Files of settings: one setting a line, carried out in order on fresh settings.
//
// Proved: which setting a line says, which call each setting makes, what all settings of a file
// make of fresh ones, in order, up to the first line that is wrong or refused, and the message that
// reports it.
pub mod fault;
mod forms;
pub mod reader;
pub mod setting;
