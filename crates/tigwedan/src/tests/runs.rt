// Runs over a host that keeps its files in memory, and fails where it is asked to.
ghost use Rattle.std.specs.Prelude.{None, ⊤};

use program::host::Host;
use program::report::status;
use program::run::run;
use recorder::session::write;
use samples::kinds::ConverterSample;
use samples::sample::Sample;
use std::alloc::Global;
use std::test::Fail;
use std::time::Duration;
use std::{fmt, io};

// One gain index, at 8000 samples a second.
const GAIN: [u8; 46] =
    *b"RIFF\x26\0\0\0WAVEfmt \x10\0\0\0\x01\0\x01\0\x40\x1F\0\0\x40\x1F\0\0\x01\0\x08\0data\x01\0\0\0\0\0";

// As many samples as fit one recording, so that a slow clock needs a second.
const SAMPLES: usize = 16373;

const SETTINGS: &[u8] = b"lead 16400\nclock -9007199254740\nclock_bypass 0\n";

#[derive(Drop)]
struct Memory {
    heap: Global,
    signal: Vec<u8>,
    // The names of the files that were written.
    written: Vec<String>,
    // How many files there is room for.
    room: usize,
    // The file that cannot be read.
    broken: &'static str,
}

impl Memory {
    fn new(heap: Global, room: usize, broken: &'static str) -> Result<Memory, Fail> {
        let samples = vec![in heap; ConverterSample::new(100, -3); SAMPLES]?;
        let mut signal = vec![in heap; 0u8; 65536]?;
        let length = write(samples.as_slice(), 8000, signal.as_mut_slice());
        if length != Ok(65536) {
            return Err(Fail::from("the signal is not written"));
        }
        Ok(Memory {
            heap,
            signal,
            written: Vec::new(heap),
            room,
            broken,
        })
    }
}

impl Host for Memory {
    ghost written = { λ _. None };

    ghost may_read = { λ _ _ _. ⊤ };

    ghost may_say_same = { λ _ _ _ _. ⊤ };

    ghost may_say_other = { λ _ _ _. ⊤ };

    fn read(&self, name: &str) -> io::Result<Vec<u8>> {
        if name == self.broken {
            return Err(io::Error::from(io::ErrorKind::BrokenPipe));
        }
        let mut bytes = Vec::new(self.heap);
        match name {
            "signal" => bytes.extend_from_slice(self.signal.as_slice())?,
            "gain" => bytes.extend_from_slice(&GAIN)?,
            _ => bytes.extend_from_slice(SETTINGS)?,
        }
        Ok(bytes)
    }

    fn write(&mut self, name: &str, _bytes: &[u8]) -> io::Result<()> {
        if self.written.len() >= self.room {
            return Err(io::Error::from(io::ErrorKind::StorageFull));
        }
        self.written.push(String::from_str(self.heap, name)?)?;
        Ok(())
    }

    fn is_one_file(&self, input: &str, other: &str) -> bool {
        input == other
    }

    fn holds_other(&self, _name: &str) -> bool {
        false
    }

    fn time(&self) -> io::Result<Duration> {
        Ok(Duration::ZERO)
    }

    fn report_progress(&self, _samples: u64, _files: u32) -> io::Result<()> {
        Ok(())
    }

    fn print<T: fmt::Display>(&self, _text: &T) -> io::Result<()> {
        Ok(())
    }

    fn complain(&self, _line: &str) -> io::Result<()> {
        Ok(())
    }
}

// Plays the signal: the status, what stopped the run, and the names of the files that were written.
fn played(heap: Global, host: &mut Memory, out: &str) -> Result<String, Fail> {
    let mut words = Vec::new(heap);
    for word in ["play", "signal", "gain", out, "settings"] {
        words.push(String::from_str(heap, word)?)?;
    }
    let outcome = run(heap, host, words.as_slice());
    let status = status(&outcome);
    let mut text = format!(in heap; "{status}")?;
    if let Err(failure) = &outcome {
        let line = failure.line(heap)?;
        write!(text, "; {line}")?;
    }
    for name in &host.written {
        write!(text, "; wrote {name}")?;
    }
    Ok(text)
}

#[test]
fn two_files(rt: HostRuntime) -> Result<(), Fail> {
    let mut host = Memory::new(rt.alloc(), 9, "")?;
    let text = played(rt.alloc(), &mut host, "out.wav")?;
    assert_eq!(rt; text.as_str(), "0; wrote out.wav; wrote out-2.wav");
    Ok(())
}

#[test]
fn no_room_for_the_second_file(rt: HostRuntime) -> Result<(), Fail> {
    let mut host = Memory::new(rt.alloc(), 1, "")?;
    let text = played(rt.alloc(), &mut host, "out.wav")?;
    assert!(rt;
        text.as_str()
            .starts_with("1; out-2.wav: cannot be written: ")
    );
    assert!(rt; text.as_str().ends_with("; wrote out.wav"));
    Ok(())
}

#[test]
fn an_input_that_cannot_be_read(rt: HostRuntime) -> Result<(), Fail> {
    for name in ["signal", "gain", "settings"] {
        let mut host = Memory::new(rt.alloc(), 9, name)?;
        let text = played(rt.alloc(), &mut host, "out.wav")?;
        assert!(rt; text.as_str().starts_with("1; "));
        assert!(rt; text.as_str().contains(": cannot be read: "));
        assert!(rt; host.written.is_empty());
    }
    Ok(())
}
