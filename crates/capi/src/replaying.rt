// Making calls on a player of the standard chain, each answered by a line of text.
ghost use Rattle.std.specs.Prelude.{◌≡◌, ◌≢◌, [], length, string_bytes, Ok, Err, MatchResult};
ghost use Rattle.chain.specs.Chains.{played};
ghost use Rattle.recordings.specs.Pair.{link_opening};
ghost use Rattle.capi.specs.Replaying.{run_text, TellsOpened, Replayed, put_answer, after_put, replay_answer, after_replay, Replays};
ghost use Rattle.capi.specs.Texts.{SaysSteps};

use crate::outcome::Outcome;
use crate::refusal::{Input, Refusal, conclude};
use crate::report::Report;
use crate::texts::{refusal_of, settings_of};
use chain::playing::standard_run;
use recordings::pair::LinkRecordings;
use samples::gain_index::GainIndex;
use samples::kinds::ConverterSample;
use settings::settings::Settings;
use sources::source::Source;
use std::alloc::{AllocError, Global};
use text::entries::read_all;
use text::numbered::Numbered;
use text::settings_file::fault::LineFault;
use text::transcript::answers::AnswerLines;
use text::transcript::step::{Step, calls_of};

/// A line for each answer, and the rate of the signal in samples a second.
#[derive(Drop)]
pub struct Transcript {
    /// Samples a second, of the signal.
    pub rate: u32,
    /// A line for each call.
    pub text: String,
}

// Makes the calls on one player over the chain: a line for each answer. Where there are no calls, no memory is taken.
fn replay_chain<S: Source<Item = ConverterSample> + Drop, G: Source<Item = GainIndex> + Drop>(
    heap: Global,
    settings: &Settings,
    signal: S,
    indices: G,
    steps: &[Numbered<Step>],
) -> Result<String, AllocError>
    ensures { let whole = played settings.now (S.Source.whole signal) (G.Source.whole indices) in
        MatchResult result
        (λ text. string_bytes text ≡ run_text whole steps.now)
        (λ _. steps.now ≢ []) }
{
    if steps.is_empty() {
        return Ok(String::new(heap));
    }
    let calls = calls_of(heap, steps)?;
    let answers = standard_run(heap, settings, signal, indices, calls)?;
    let lines = AnswerLines {
        steps,
        answers: answers.as_slice(),
    };
    format!(in heap; "{lines}")
}

// Opens both recordings and makes the calls on the chain over them. Bytes one by one, as C hands them in.
fn replay_recordings(
    heap: Global,
    settings: &Settings,
    signal: &[u8],
    gain: &[u8],
    steps: &[Numbered<Step>],
) -> Result<Transcript, Refusal>
    ensures { TellsOpened settings.now steps.now (link_opening signal.now gain.now) result }
{
    let LinkRecordings { signal, gain } = LinkRecordings::open(signal, gain)?;
    let rate = signal.rate();
    let text = replay_chain(heap, settings, signal, gain, steps)?;
    Ok(Transcript { rate, text })
}

// The steps that a text says.
fn steps_of(heap: Global, text: &[u8]) -> Result<Vec<Numbered<Step>>, Refusal>
    ensures { MatchResult result
        (λ steps. SaysSteps text.now (Ok steps.items))
        (λ e. SaysSteps text.now (Err e)) }
{
    read_all(heap, text).map_err(|wrong| refusal_of(Input::Calls, LineFault::from(wrong)))
}

// Reads the settings and the calls, and makes the calls.
fn replay(
    heap: Global,
    signal: &[u8],
    gain: &[u8],
    settings: &[u8],
    calls: &[u8],
) -> Result<Transcript, Refusal>
    ensures { Replayed settings.now calls.now signal.now gain.now result }
{
    let made = settings_of(heap, settings)?;
    let steps = steps_of(heap, calls)?;
    replay_recordings(heap, &made, signal, gain, steps.as_slice())
}

// Puts the text at the start of the buffer, if there is room for all of it; answers its length.
fn put(text: &[u8], out: &mut [u8]) -> Result<u64, Refusal>
    ensures answer { result ≡ put_answer text.now (length out.old) }
    ensures buffer { out.new ≡ after_put text.now out.old }
{
    if text.len() > out.len() {
        return Err(Refusal::Room(text.len() as u64));
    }
    out[0..text.len()].copy_from_slice(text);
    Ok(text.len() as u64)
}

fn deliver(transcript: Result<Transcript, Refusal>, out: &mut [u8]) -> Result<Report, Refusal>
    ensures answer { result ≡ replay_answer transcript (length out.old) }
    ensures buffer { out.new ≡ after_replay transcript out.old }
{
    let Transcript { rate, text } = transcript?;
    let items = put(text.as_bytes(), out)?;
    let ending = None;
    Ok(Report::outcome(rate, Outcome { items, ending }))
}

/// Makes the calls of the text on one player over the standard chain, and writes a line for each answer. The report has the
/// signal's rate and how many bytes were written. Refused for the first wrong line of the settings or the calls (65), a
/// setting out of its range (1 to 7, 13), where memory runs out (66), for bytes that do not open (8 to 11), and for a buffer
/// that is too short for all lines (67, with the bytes that it needs); the buffer then stays as it was.
#[unsafe(no_mangle)]
pub extern "C" fn tigwedan_replay(
    heap: Global,
    signal: &[u8],
    gain: &[u8],
    settings: &[u8],
    calls: &[u8],
    out: &mut [u8],
    report: &mut Report,
) -> u32
    ensures { Replays settings.now calls.now signal.now gain.now out.old out.new report.new result }
{
    let transcript = replay(heap, signal, gain, settings, calls);
    conclude(deliver(transcript, out), report)
}
