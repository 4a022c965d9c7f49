// What opening answers: `refused 10 at byte 28`, or the rate, the items and the ending.
use crate::cases::builder;
use crate::cases::showing::Refused;
use anyhow::anyhow;
use comparison::ending::Ends;
use recordings::layout::{Gains, Layout, Signal};
use recordings::pair::Input;
use recordings::recording::Recording;
use samples::gain_index::GainIndex;
use samples::kinds::ConverterSample;
use sources::fault::AtItem;
use sources::whole::Whole;
use std::alloc::Global;
use std::fmt::Write;

// An item that a case can show.
// Added to the text, as an answer is built of several.
trait Shown: Copy {
    fn show(self, text: &mut String) -> anyhow::Result<()>;
}

impl Shown for ConverterSample {
    fn show(self, text: &mut String) -> anyhow::Result<()> {
        let re = self.re;
        let im = self.im;
        Ok(write!(text, " ({re}, {im})")?)
    }
}

impl Shown for GainIndex {
    fn show(self, text: &mut String) -> anyhow::Result<()> {
        let index = self.index;
        Ok(write!(text, " {index}")?)
    }
}

fn opened_as<'a, L: Layout>(heap: Global, input: Input, bytes: &'a [u8]) -> anyhow::Result<String>
where
    L::Item: Shown,
{
    let mut recording = match Recording::<'a, L>::open(bytes, input.number()) {
        Ok(recording) => recording,
        Err(refusal) => {
            let refused = Refused(refusal);
            return Ok(format!(in heap; "{refused}")?);
        }
    };
    let rate = recording.rate();
    let mut text = format!(in heap; "rate {rate}:")?;
    let whole = Whole::of(heap, &mut recording)?;
    for item in whole.items.iter() {
        item.show(&mut text)?;
    }
    let ends = Ends(whole.ending.map_err(AtItem));
    write!(text, " {ends}")?;
    Ok(text)
}

// What opening the bytes as a recording of this kind answers.
pub(crate) fn opened(heap: Global, kind: &str, bytes: &[u8]) -> anyhow::Result<String> {
    // A word becomes a type here.
    match kind {
        "signal" => opened_as::<Signal>(heap, Input::Signal, bytes),
        "gain" => opened_as::<Gains>(heap, Input::Gain, bytes),
        _ => Err(anyhow!("a recording is opened as signal or gain")),
    }
}

// The same for bytes that are spelled in words.
pub(crate) fn answer(heap: Global, kind: &str, words: &str) -> anyhow::Result<String> {
    let bytes = builder::bytes(heap, words)?;
    opened(heap, kind, bytes.as_slice())
}
