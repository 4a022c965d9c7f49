// Where a run reads, writes and prints: the trait, and the machine's file system, clock and outputs.
ghost use Rattle.std.specs.Prelude.{ℕ, List, Bool, Option, IfOk, OnOk, [], ◌∷◌, None, ⊤};
ghost use Rattle.program.specs.Files.{Adds, File};

use std::fs::Metadata;
use std::io::Read;
use std::os::unix::fs::MetadataExt;
use std::rt::{Clock, Files};
use std::time::Duration;
use std::{fmt, fs, io};

/// Where a run reads, writes and prints: the machine, or what stands in for it.
pub trait Host {
    /// The files that were written, in order; `None` where no list of them is kept.
    ghost written: { Self → Option (List File) };

    /// Which bytes may have been read under a name.
    ghost may_read: { Self → List ℕ → List ℕ → Type 0 };

    /// What may be reported of whether an input and a name lead to one file.
    ghost may_say_same: { Self → List ℕ → List ℕ → Bool → Type 0 };

    /// What may be reported of whether something else than a recording lies under a name.
    ghost may_say_other: { Self → List ℕ → Bool → Type 0 };

    /// All bytes of the file.
    fn read(&self, name: &str) -> io::Result<Vec<u8>>
        ensures { IfOk result (λ bytes. may_read self.now name.now bytes.items) };

    /// Writes the bytes as the file of this name; a file that is there is replaced.
    fn write(&mut self, name: &str, bytes: &[u8]) -> io::Result<()>
        ensures { OnOk result
            (Adds ((name.now, bytes.now) ∷ []) (written self.old) (written self.new)) };

    /// Whether the input and the other name lead to one file.
    fn is_one_file(&self, input: &str, other: &str) -> bool
        ensures { may_say_same self.now input.now other.now result };

    /// Whether a file of this name is there that is neither empty nor a recording.
    fn holds_other(&self, name: &str) -> bool
        ensures { may_say_other self.now name.now result };

    /// The time since some start that stays.
    fn time(&self) -> io::Result<Duration>;

    /// Reports how far a long run has come.
    fn report_progress(&self, samples: u64, files: u32) -> io::Result<()>;

    /// Prints what was asked for, to the output.
    fn print<T: fmt::Display>(&self, text: &T) -> io::Result<()>;

    /// Prints why a run stopped, to the error output.
    fn complain(&self, line: &str) -> io::Result<()>;
}

// How a recording begins.
const MARK: [u8; 4] = *b"RIFF";

/// The machine that the program runs on. Names are those of the file system. It keeps no list of what it wrote.
#[derive(Clone, Copy)]
pub struct Disk<'a, R>(pub &'a R);

// A name without `./` in front. One that goes on with a `/` stays: without it, it would be that of another file.
fn plain_name(name: &str) -> &str {
    let plain = name.trim_start_matches("./");
    if plain.starts_with('/') { name } else { plain }
}

// Both are files that the system tells apart by device and inode.
fn same_node(one: &Metadata, other: &Metadata) -> bool {
    one.dev() == other.dev() && one.ino() == other.ino()
}

// The first bytes of the file.
fn begins_otherwise<R: Files>(rt: &R, name: &str) -> io::Result<bool> {
    let mut file = fs::open(rt, name)?;
    let mut bytes = [0; 4];
    let count = file.read(&mut bytes)?;
    Ok(count > 0 && bytes != MARK)
}

impl<'a, R: Files + Print + Eprint + Clock + AllocGlobal> Host for Disk<'a, R> {
    ghost written = { λ _. None };

    ghost may_read = { λ _ _ _. ⊤ };

    ghost may_say_same = { λ _ _ _ _. ⊤ };

    ghost may_say_other = { λ _ _ _. ⊤ };

    fn read(&self, name: &str) -> io::Result<Vec<u8>> {
        fs::read(self.0, name)
    }

    fn write(&mut self, name: &str, bytes: &[u8]) -> io::Result<()> {
        fs::write(self.0, name, bytes)
    }

    // By device and inode; where the system has none, by name.
    fn is_one_file(&self, input: &str, other: &str) -> bool {
        match (fs::metadata(self.0, input), fs::metadata(self.0, other)) {
            (Ok(one), Ok(two)) if one.ino() != 0 && two.ino() != 0 => same_node(&one, &two),
            _ => plain_name(input) == plain_name(other),
        }
    }

    // A device or a pipe is no file of anybody's; what cannot be read is reported where it is written.
    fn holds_other(&self, name: &str) -> bool {
        match fs::metadata(self.0, name) {
            Ok(metadata) if metadata.is_file() => begins_otherwise(self.0, name).unwrap_or(false),
            _ => false,
        }
    }

    fn time(&self) -> io::Result<Duration> {
        self.0.monotonic()
    }

    fn report_progress(&self, samples: u64, files: u32) -> io::Result<()> {
        eprintln!(self.0; "{samples} samples so far, in {files} files")
    }

    fn print<T: fmt::Display>(&self, text: &T) -> io::Result<()> {
        println!(self.0; "{text}")
    }

    fn complain(&self, line: &str) -> io::Result<()> {
        eprintln!(self.0; "tigwedan: {line}")
    }
}
