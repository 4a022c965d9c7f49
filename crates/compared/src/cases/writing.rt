// What writing answers: how many samples were put in, the length or the refusals, and then the bytes of the buffer.
//
// The buffer is full of EE before, so that one sees which bytes were written.
use anyhow::anyhow;
use recorder::refusal::WritingRefusal;
use recorder::started::StartedRecording;
use samples::kinds::ConverterSample;
use samples::sample::Sample;
use std::alloc::Global;
use std::fmt;
use std::fmt::Write;

pub const UNWRITTEN: u8 = 0xEE;

// The bytes of a longer buffer are not shown.
const SHOWN: usize = 64;

// How a recording is closed: finished, in so many bytes of the buffer if not in all, or abandoned.
#[derive(Clone, Copy)]
enum Closing {
    Finish(Option<usize>),
    Abandon,
}

// What is asked of the writer: the rate, the bytes of the buffer, how many of them are lent at each call if not all, and
// how to close.
#[derive(Clone, Copy)]
struct Task {
    rate: u32,
    bytes: usize,
    start: Option<usize>,
    put: Option<usize>,
    closing: Closing,
}

// A sample, and how often it is put in.
#[derive(Clone, Copy)]
struct Run {
    sample: ConverterSample,
    times: u32,
}

// The length of a finished recording, or the samples of an abandoned one.
#[derive(Clone, Copy)]
enum End {
    Finished(usize),
    Abandoned(u32),
}

// How many samples were put in, the refusal of the last that was not, and the end, or why there is none.
#[derive(Clone, Copy)]
struct Outcome {
    put: u32,
    refused: Option<WritingRefusal>,
    end: Result<End, WritingRefusal>,
}

impl fmt::Display for Outcome {
    fn fmt<W: fmt::Write>(&self, f: &mut fmt::Formatter<W>) -> fmt::Result {
        let put = self.put;
        write!(f, "put {put}")?;
        if let Some(refusal) = self.refused {
            let number = refusal.number();
            write!(f, ", refused {number}")?;
        }
        match self.end {
            Ok(End::Finished(length)) => write!(f, ", length {length}"),
            Ok(End::Abandoned(samples)) => write!(f, ", abandoned {samples}"),
            Err(refusal) => {
                let number = refusal.number();
                write!(f, ", finish refused {number}")
            }
        }
    }
}

// Reads `rate=8000 bytes=48 start=48 put=47 finish=44 abandon`; where nothing is said, the whole buffer is lent.
fn parse_task(words: &str) -> anyhow::Result<Task> {
    let mut task = Task {
        rate: 8000,
        bytes: 0,
        start: None,
        put: None,
        closing: Closing::Finish(None),
    };
    for word in words.split_whitespace() {
        match word.split_once('=') {
            Some(("rate", rate)) => task.rate = rate.parse::<u32>()?,
            Some(("bytes", bytes)) => task.bytes = bytes.parse::<usize>()?,
            Some(("start", bytes)) => task.start = Some(bytes.parse::<usize>()?),
            Some(("put", bytes)) => task.put = Some(bytes.parse::<usize>()?),
            Some(("finish", bytes)) => {
                task.closing = Closing::Finish(Some(bytes.parse::<usize>()?));
            }
            None if word == "abandon" => task.closing = Closing::Abandon,
            _ => {}
        }
    }
    Ok(task)
}

// Reads a sample as `100,-3` or, where it is put in several times, `100,-3,7`.
fn parse_run(word: &str) -> anyhow::Result<Run> {
    let mut numbers = word.split(',');
    let (Some(re), Some(im)) = (numbers.next(), numbers.next()) else {
        return Err(anyhow!("a sample has two parts"));
    };
    let times = numbers.next().unwrap_or("1").parse::<u32>()?;
    let sample = ConverterSample::new(re.parse::<i64>()?, im.parse::<i64>()?);
    Ok(Run { sample, times })
}

// The first bytes of a buffer, as many as are asked for; all where there are no more, or nothing is said.
fn lent(bytes: &mut [u8], length: Option<usize>) -> &mut [u8] {
    let end = length.unwrap_or(bytes.len()).min(bytes.len());
    &mut bytes[..end]
}

fn put_all(
    recording: &mut StartedRecording,
    bytes: &mut [u8],
    runs: &[Run],
) -> (u32, Option<WritingRefusal>) {
    let mut put: u32 = 0;
    let mut refused = None;
    for run in runs {
        for _ in 0..run.times {
            match recording.put(bytes, run.sample) {
                Ok(()) => put = put.saturating_add(1),
                Err(refusal) => refused = Some(refusal),
            }
        }
    }
    (put, refused)
}

// What is refused comes back, and is let go.
fn finish(recording: StartedRecording, bytes: &mut [u8]) -> Result<End, WritingRefusal> {
    match recording.finish(bytes) {
        Ok(length) => Ok(End::Finished(length)),
        Err((refusal, back)) => {
            back.abandon();
            Err(refusal)
        }
    }
}

// A recording from its start to its end; the refusal where it does not start.
fn written(task: Task, bytes: &mut [u8], runs: &[Run]) -> Result<Outcome, WritingRefusal> {
    let mut recording = StartedRecording::start(lent(bytes, task.start), task.rate)?;
    let (put, refused) = put_all(&mut recording, lent(bytes, task.put), runs);
    let end = match task.closing {
        Closing::Finish(length) => finish(recording, lent(bytes, length)),
        Closing::Abandon => Ok(End::Abandoned(recording.abandon())),
    };
    Ok(Outcome { put, refused, end })
}

// The bytes of a small buffer in hexadecimal.
// Added to the text, as an answer is built of several.
pub(crate) fn show_bytes(bytes: &[u8], text: &mut String) -> anyhow::Result<()> {
    if !bytes.is_empty() && bytes.len() <= SHOWN {
        let digits = hex::encode_upper(*text.allocator(), bytes)?;
        write!(text, ": {digits}")?;
    }
    Ok(())
}

pub(crate) fn answer(heap: Global, what: &str, samples: &str) -> anyhow::Result<String> {
    let task = parse_task(what)?;
    let runs = samples
        .split_whitespace()
        .map(parse_run)
        .try_collect::<Vec<Run>>(heap)?;
    let mut bytes = vec![in heap; UNWRITTEN; task.bytes]?;
    let mut text = String::new(heap);
    match written(task, bytes.as_mut_slice(), runs.as_slice()) {
        Ok(outcome) => write!(text, "{outcome}")?,
        Err(refusal) => {
            let number = refusal.number();
            write!(text, "start refused {number}")?;
        }
    }
    show_bytes(bytes.as_slice(), &mut text)?;
    Ok(text)
}
