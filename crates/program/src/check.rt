// What a recording holds.
ghost use Rattle.std.specs.Prelude.{◌≡◌};
ghost use Rattle.recordings.specs.Opening.{opening};
ghost use Rattle.recordings.specs.Pair.{input_number};
ghost use Rattle.program.specs.Contents.{checked, contents_answer, counted_of};

use recordings::layout::{Gains, Layout, Signal};
use recordings::pair::Input;
use recordings::recording::Recording;
use recordings::refusal::OpeningRefusal;
use sources::fault::Ending;
use sources::source::Source;

/// How many items a source has left, as far as 64 bits can count, and how they end.
#[derive(Clone, Copy, PartialEq, Eq, Debug)]
pub struct Counted {
    /// How many there are, up to 2^64 - 1.
    pub items: u64,
    /// How they end.
    pub ending: Ending,
}

/// Counts what the source has left, and passes it over.
pub fn count<S: Source>(source: &mut S) -> Counted
    ensures counts { result ≡ counted_of (S.left source.old) }
    ensures whole { S.whole source.new ≡ S.whole source.old }
{
    let mut items = 0u64;
    for _item in source.items() {
        items = items.saturating_add(1);
    }
    let ending = source.ending();
    Counted { items, ending }
}

/// What a recording holds: its rate, in samples a second, how many items, and how they end.
#[derive(Clone, Copy, PartialEq, Eq, Debug)]
pub struct Contents {
    /// In samples a second, 1 to 100,000,000.
    pub rate: u32,
    /// What is in it.
    pub counted: Counted,
}

// Opens the bytes as a recording of the kind L.
fn examine<'a, L: Layout>(bytes: &'a [u8], input: Input) -> Result<Contents, OpeningRefusal>
    ensures { result
        ≡ contents_answer (opening L.FORMAT L.meaning (input_number input) bytes.now) }
{
    let mut recording: Recording<'a, L> = Recording::open(bytes, input.number())?;
    let rate = recording.rate();
    let counted = count(&mut recording);
    Ok(Contents { rate, counted })
}

/// Opens the bytes as the signal or the gain recording of a link, and reads it to its end.
pub fn check(bytes: &[u8], input: Input) -> Result<Contents, OpeningRefusal>
    ensures { result ≡ checked input bytes.now }
{
    match input {
        Input::Signal => examine::<Signal>(bytes, input),
        Input::Gain => examine::<Gains>(bytes, input),
    }
}
