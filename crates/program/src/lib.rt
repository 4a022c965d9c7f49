// The program's library: its arguments, commands and reports, over a host that reads and writes.
//
// Proved: which words of the command line say which command, and why others say none; what each written file holds, byte
// for byte, and under which name; that no file is written of which the host reported that it is an input, or something
// else than a recording; what the summaries count; which status a run ends with; how often a chain is timed, and the sum
// over its samples; that the block size makes no difference; and that a run does what its words say, with the bytes that
// its host may have read under the names of their files, and names the file that it refuses. The words of its reports and
// refusals are proved too; those of other failures, the usage and the demonstration are not.
#![tactic(auto)]

pub mod arguments;
pub mod bench;
pub mod block;
pub mod check;
pub mod copy;
pub mod demonstration;
pub mod failure;
pub mod host;
pub mod inputs;
pub mod levels;
pub mod names;
pub mod play;
pub mod printing;
pub mod replay;
pub mod report;
pub mod run;
pub mod sides;
pub mod written;
