// What rewriting answers: length and samples of each part, the ending, and then the bytes of the buffer.
use crate::cases::builder;
use crate::cases::showing::Refused;
use crate::cases::writing::{UNWRITTEN, show_bytes};
use anyhow::anyhow;
use comparison::ending::Ends;
use recorder::refusal::RewritingRefusal;
use recorder::session::{Part, record, rewrite};
use recordings::pair::Input;
use samples::kinds::ConverterSample;
use sources::fault::AtItem;
use sources::source::Source;
use std::alloc::Global;
use std::fmt::Write;

// No case asks for more parts.
const PARTS: u32 = 3;

// Added to the text, as an answer is built of several.
fn show_part(part: Part, text: &mut String) -> anyhow::Result<()> {
    let length = part.length;
    let samples = part.samples;
    if !text.is_empty() {
        text.push(' ')?;
    }
    write!(text, "{length}/{samples}")?;
    if let Some(ending) = part.ending {
        let ends = Ends(ending.map_err(AtItem));
        write!(text, " {ends}")?;
    }
    Ok(())
}

// The parts from the first on, each written over the one before; added to the text, as they come one by one.
fn show_parts<S: Source<Item = ConverterSample>>(
    first: Part,
    rate: u32,
    source: &mut S,
    buffer: &mut [u8],
    text: &mut String,
) -> anyhow::Result<()> {
    let mut part = first;
    show_part(part, text)?;
    for _ in 1..PARTS {
        if part.ending.is_none() {
            part = record(source, rate, buffer).map_err(|refusal| anyhow!(
                "a further part is refused: {refusal}"
            ))?;
            show_part(part, text)?;
        }
    }
    Ok(())
}

pub(crate) fn answer(heap: Global, room: &str, words: &str) -> anyhow::Result<String> {
    let bytes = builder::bytes(heap, words)?;
    let mut buffer = vec![in heap; UNWRITTEN; room.parse::<usize>()?]?;
    let mut text = String::new(heap);
    match rewrite(
        bytes.as_slice(),
        Input::Signal.number(),
        buffer.as_mut_slice(),
    ) {
        Ok((first, mut recording)) => {
            let rate = recording.rate();
            show_parts(
                first,
                rate,
                &mut recording,
                buffer.as_mut_slice(),
                &mut text,
            )?;
        }
        Err(RewritingRefusal::Opening(refusal)) => {
            let refused = Refused(refusal);
            write!(text, "{refused}")?;
        }
        Err(RewritingRefusal::Writing(refusal)) => {
            let number = refusal.number();
            write!(text, "refused {number}")?;
        }
    }
    show_bytes(buffer.as_slice(), &mut text)?;
    Ok(text)
}
