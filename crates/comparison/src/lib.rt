// What the programs have in common that compare: endings in words, the count of cases, and the lines of a table.
//
// Proved: the words of an ending; what is counted; which lines of a text are entries, and the columns of an entry.
#![tactic(auto)]

pub mod ending;
pub mod table;
pub mod tally;
