// One run of the standard chain, as the files of its name say.
use anyhow::anyhow;
use chain::standard::standard_chain;
use comparison::ending::Ends;
use player::run::run;
use recorder::session::{Part, record};
use recorder::started::MAX_BYTES;
use recordings::pair::LinkRecordings;
use settings::settings::Settings;
use sources::difference::first_difference;
use std::alloc::{AllocError, Global};
use std::fs;
use std::str::from_utf8;
use text::entries::read_all;
use text::numbered::Numbered;
use text::settings_file::reader;
use text::transcript::answers::AnswerLines;
use text::transcript::step::{Step, calls_of};

fn bytes_of(rt: &HostRuntime, name: &str, kind: &str) -> anyhow::Result<Vec<u8>> {
    let file = format!(in rt.alloc(); "{name}.{kind}")?;
    Ok(fs::read(rt, file.as_str())?)
}

// `600 samples, finished`, or with the fault in place of the end.
fn summary(heap: Global, part: Part) -> Result<String, AllocError> {
    let samples = part.samples;
    match part.ending {
        None => format!(in heap; "more than {samples} samples"),
        Some(ending) => {
            let ends = Ends(ending);
            format!(in heap; "{samples} samples, {ends}")
        }
    }
}

// The first line that differs, from 1.
fn wrong_line(heap: Global, found: &str, expected: &str) -> Result<Option<usize>, AllocError> {
    let found = found.lines().collect::<Vec<&str>>(heap)?;
    let expected = expected.lines().collect::<Vec<&str>>(heap)?;
    let place = first_difference(found.as_slice(), expected.as_slice());
    Ok(place.map(|place| place.saturating_add(1)))
}

#[derive(Drop)]
pub(crate) struct Run<'r> {
    rt: &'r HostRuntime,
    name: &'r str,
    settings: Settings,
    signal: Vec<u8>,
    gain: Vec<u8>,
}

impl<'r> Run<'r> {
    pub(crate) fn read(rt: &'r HostRuntime, name: &'r str) -> anyhow::Result<Run<'r>> {
        let bytes = bytes_of(rt, name, "settings.txt")?;
        let settings = reader::read(rt.alloc(), bytes.as_slice()).map_err(|fault| anyhow!(
            "a settings file is refused: {fault}"
        ))?;
        let signal = bytes_of(rt, name, "signal.wav")?;
        let gain = bytes_of(rt, name, "gain.wav")?;
        Ok(Run {
            rt,
            name,
            settings,
            signal,
            gain,
        })
    }

    fn open(&self) -> anyhow::Result<LinkRecordings<'_>> {
        LinkRecordings::open(self.signal.as_slice(), self.gain.as_slice()).map_err(|(
            _,
            refusal,
        )| anyhow!("a recording does not open: {refusal}"))
    }

    fn steps(&self) -> anyhow::Result<Vec<Numbered<Step>>> {
        let bytes = bytes_of(self.rt, self.name, "calls.txt")?;
        read_all(self.rt.alloc(), bytes.as_slice()).map_err(|wrong| anyhow!(
            "a file of calls has a wrong line: {wrong}"
        ))
    }

    // What is recorded, in words: as it should, or the first byte that differs.
    fn recorded(&self) -> anyhow::Result<String> {
        let heap = self.rt.alloc();
        let LinkRecordings { signal, gain } = self.open()?;
        let rate = signal.rate();
        let mut chain = standard_chain(&self.settings, signal, gain);
        let mut out = vec![in heap; 0; MAX_BYTES]?;
        let part = record(&mut chain, rate, out.as_mut_slice()).map_err(|refusal| anyhow!(
            "a run is not recorded: {refusal}"
        ))?;
        out.truncate(part.length);
        let expected = bytes_of(self.rt, self.name, "expected.wav")?;
        match first_difference(out.as_slice(), expected.as_slice()) {
            None => Ok(summary(heap, part)?),
            Some(place) => Ok(format!(in heap; "byte {place} of what is recorded differs")?),
        }
    }

    // The number of answers to the calls in words, or the first that differs.
    fn answered(&self) -> anyhow::Result<String> {
        let heap = self.rt.alloc();
        let steps = self.steps()?;
        let LinkRecordings { signal, gain } = self.open()?;
        let chain = standard_chain(&self.settings, signal, gain);
        let answers = run(heap, chain, calls_of(heap, steps.as_slice())?)?;
        let lines = AnswerLines {
            steps: steps.as_slice(),
            answers: answers.as_slice(),
        };
        let found = format!(in heap; "{lines}")?;
        let expected = bytes_of(self.rt, self.name, "answers.txt")?;
        let count = answers.len();
        match wrong_line(heap, found.as_str(), from_utf8(expected.as_slice())?)? {
            None => Ok(format!(in heap; "{count} answers")?),
            Some(line) => Ok(format!(in heap; "answer {line} differs")?),
        }
    }

    // Plays once to record, and once to make the calls: what came out, in words.
    pub(crate) fn outcome(&self) -> anyhow::Result<String> {
        let recorded = self.recorded()?;
        let answered = self.answered()?;
        Ok(format!(in self.rt.alloc(); "{recorded}, {answered}")?)
    }
}
