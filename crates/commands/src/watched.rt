// The machine, watched: what is written is noted, and the clock stands still.
ghost use Rattle.std.specs.Prelude.{None, ⊤};

use program::host::{Disk, Host};
use sha2::{Digest, Sha256};
use std::time::Duration;
use std::{fmt, io};

#[derive(Drop)]
pub struct Watched<'a> {
    rt: &'a HostRuntime,
    disk: Disk<'a, HostRuntime>,
    // A line for each file that was written.
    written: Vec<String>,
}

impl<'a> Watched<'a> {
    pub fn new(rt: &'a HostRuntime) -> Watched<'a> {
        Watched {
            rt,
            disk: Disk(rt),
            written: Vec::new(rt.alloc()),
        }
    }

    // Prints each file that was written, its length and its digest, as it was read back.
    pub fn print_written(&self) -> io::Result<()> {
        for line in &self.written {
            println!(self.rt; "{line}")?;
        }
        Ok(())
    }
}

impl<'a> Host for Watched<'a> {
    ghost written = { λ _. None };

    ghost may_read = { λ _ _ _. ⊤ };

    ghost may_say_same = { λ _ _ _ _. ⊤ };

    ghost may_say_other = { λ _ _ _. ⊤ };

    fn read(&self, name: &str) -> io::Result<Vec<u8>> {
        self.disk.read(name)
    }

    fn write(&mut self, name: &str, bytes: &[u8]) -> io::Result<()> {
        self.disk.write(name, bytes)?;
        // What lies there now, not what was handed over.
        let bytes = self.disk.read(name)?;
        let length = bytes.len();
        let digest = Sha256::digest(bytes.as_slice());
        let shown = hex::encode(self.rt.alloc(), &digest)?;
        let line = format!(in self.rt.alloc(); "wrote {name}: {length} bytes, sha256 {shown}")?;
        self.written.push(line)?;
        Ok(())
    }

    fn is_one_file(&self, input: &str, other: &str) -> bool {
        self.disk.is_one_file(input, other)
    }

    fn holds_other(&self, name: &str) -> bool {
        self.disk.holds_other(name)
    }

    fn time(&self) -> io::Result<Duration> {
        Ok(Duration::ZERO)
    }

    fn report_progress(&self, samples: u64, files: u32) -> io::Result<()> {
        println!(self.rt; "{samples} samples so far, in {files} files")
    }

    fn print<T: fmt::Display>(&self, text: &T) -> io::Result<()> {
        println!(self.rt; "{text}")
    }

    // What goes to the errors stands behind a mark here.
    fn complain(&self, line: &str) -> io::Result<()> {
        println!(self.rt; "errors: {line}")
    }
}
