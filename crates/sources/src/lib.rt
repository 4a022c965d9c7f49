// Sources: items of a single kind, one after the other, from a start that one can return to.
//
// At every moment a source means two finite lists of items with an ending, its whole and its left. The trait's contract
// ties each call to them, so code over any source is proved once, from the contract alone. Proved here: which number
// each fault has, how items come in a loop, which ending is reported after them, what a list of items means as a
// source, that a whole as a list is all that its source had left, and where two of them first differ.
#![tactic(auto)]

pub mod difference;
pub mod each;
pub mod fault;
pub mod held;
pub mod items;
pub mod lead;
pub mod listed;
pub mod pairing;
pub mod place;
pub mod scan;
pub mod source;
pub mod whole;
