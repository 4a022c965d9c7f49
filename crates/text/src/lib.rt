// Text files of one entry a line: a word, then its numbers, with blanks between. `#` starts a
// comment.
//
// Proved: which lines, words and numbers the bytes hold, what each entry says, what is wrong with
// the first that says nothing, and the message that reports it.
#![tactic(auto)]

pub mod entries;
pub mod entry;
pub mod fault;
pub mod lines;
pub mod number;
pub mod numbered;
pub mod numbers;
pub mod row;
pub mod settings_file;
pub mod transcript;
