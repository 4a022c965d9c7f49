// Runs of a player in text: files of calls, and the line of each answer.
//
// Proved: which call of a player a line of the file stands for, and the words of a step and
// its answer.
pub mod answers;
pub mod step;
