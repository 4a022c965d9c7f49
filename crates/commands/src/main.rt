// Carries out the command lines of a list, as the program would, and prints after each what it prints, its status, and every
// file that it wrote, by its length and its SHA-256 digest.
//
// Words stand apart by blanks; one in single quotes may hold blanks. The clock of the runs stands still, so that no time is
// printed.
#![tactic(auto)]

mod watched;

use comparison::table::is_entry;
use program::report::{print, status};
use program::run::run;
use std::alloc::{AllocError, Global};
use std::{fs, io};
use watched::Watched;

// The words of a command line. What stands between single quotes is one word.
fn words_of(heap: Global, line: &str) -> Result<Vec<String>, AllocError> {
    let mut words = Vec::new(heap);
    let mut quoted = false;
    for part in line.split('\'') {
        if quoted {
            words.push(String::from_str(heap, part)?)?;
        } else {
            for word in part.split_ascii_whitespace() {
                words.push(String::from_str(heap, word)?)?;
            }
        }
        quoted = !quoted;
    }
    Ok(words)
}

fn carry_out(rt: &HostRuntime, line: &str) -> io::Result<()> {
    println!(rt; "> tigwedan {line}")?;
    let words = words_of(rt.alloc(), line)?;
    let mut host = Watched::new(rt);
    let outcome = run(rt.alloc(), &mut host, words.as_slice());
    print(rt.alloc(), &host, &outcome)?;
    let status = status(&outcome);
    println!(rt; "status {status}")?;
    host.print_written()?;
    println!(rt; "")
}

fn main(rt: HostRuntime) -> io::Result<()> {
    let text = fs::read_to_string(&rt, "commands.txt")?;
    for line in text.lines().filter(|line| is_entry(line)) {
        carry_out(&rt, line)?;
    }
    Ok(())
}
