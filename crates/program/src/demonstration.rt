// Without arguments: a small demonstration that needs no file.
use crate::failure::Failure;
use crate::printing::{Ends, Refused};
use crate::replay::replay_steps;
use recorder::session::write;
use recordings::layout::Signal;
use recordings::pair::Input;
use recordings::recording::Recording;
use samples::gain_index::GainIndex;
use samples::kinds::ConverterSample;
use samples::sample::Sample;
use sources::held::Held;
use sources::source::Source;
use std::alloc::{AllocError, Global};
use text::entries::read_all;
use text::numbered::Numbered;
use text::settings_file::reader;
use text::transcript::answers::AnswerLines;
use text::transcript::step::Step;

const RATE: u32 = 8000;

// A link with an echo half as strong and one sample late, and a noise of a few units at the converter.
const SETTINGS: &str = "scale 4096
paths 8192 0 0 4096 0 1
gain 7 128
receive_gain 0 -5 128
";

const CALLS: &str = "fill 2
skip 1
next
next
rewind
fill 6
";

// The samples that the source hands out, and how it ends.
fn show_samples<S: Source<Item = ConverterSample>>(
    text: &mut String,
    source: &mut S,
) -> Result<(), AllocError> {
    // No `enumerate`: a source may have more items than it can count.
    for (item, sample) in (0..u64::MAX).zip(source.items()) {
        let re = sample.re();
        let im = sample.im();
        writeln!(text, "  item {item}: ({re}, {im})")?;
    }
    let ends = Ends(source.ending());
    writeln!(text, "  {ends}")
}

// What the bytes hold when they are opened, or why they are refused.
fn show(text: &mut String, bytes: &[u8]) -> Result<(), AllocError> {
    let count = bytes.len();
    match Recording::<Signal>::open(bytes, Input::Signal.number()) {
        Ok(mut recording) => {
            let rate = recording.rate();
            writeln!(
                text,
                "{count} bytes open as a signal recording, rate {rate}:"
            )?;
            show_samples(text, &mut recording)
        }
        Err(refusal) => {
            let refused = Refused(refusal);
            writeln!(text, "{count} bytes: {refused}")
        }
    }
}

// The calls on the link over the signal, with one gain index that stays, and each answer.
fn show_link<'a, S: Source<Item = ConverterSample> + Drop>(
    heap: Global,
    text: &mut String,
    signal: S,
) -> Result<(), Failure<'a>> {
    writeln!(
        text,
        "played through a link with these settings:\n{SETTINGS}the calls and their answers:"
    )?;
    let settings = reader::read(heap, SETTINGS.as_bytes()).map_err(|fault| Failure::Settings(
        "demonstration",
        fault,
    ))?;
    let steps: Vec<Numbered<Step>> = read_all(heap, CALLS.as_bytes()).map_err(
        |wrong| Failure::Calls("demonstration", wrong),
    )?;
    let indices = Held::new(GainIndex::new(0), u32::MAX);
    let answers = replay_steps(heap, &settings, signal, indices, steps.as_slice())?;
    let lines = AnswerLines {
        steps: steps.as_slice(),
        answers: answers.as_slice(),
    };
    write!(text, "{lines}")?;
    Ok(())
}

/// A recording of four samples that is written to memory and opened again, whole and damaged, and then played through a link,
/// call by call.
pub(crate) fn demonstrate<'a>(heap: Global) -> Result<String, Failure<'a>> {
    let mut text = String::new(heap);
    writeln!(
        text,
        "demonstration: a recording of four samples, written to memory and opened again"
    )?;
    let mut buffer = [0; 64];
    let samples = [(100, -3), (-2048, 2047), (0, 1), (800, 600)].map(|(re, im)| {
        ConverterSample::new(re, im)
    });
    let length = write(&samples, RATE, &mut buffer)?;
    let bytes = buffer.get(0..length).unwrap_or(&[]);
    show(&mut text, bytes)?;
    writeln!(text, "the same bytes with one at the end missing")?;
    show(
        &mut text,
        buffer.get(0..length.saturating_sub(1)).unwrap_or(&[]),
    )?;
    let signal = Recording::<Signal>::open(bytes, Input::Signal.number()).map_err(|refusal| {
        Failure::Refused("demonstration", Refused(refusal))
    })?;
    show_link(heap, &mut text, signal)?;
    Ok(text)
}
