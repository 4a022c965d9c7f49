// Playing the standard chain.
ghost use Rattle.std.specs.Prelude.{◌≡◌, length};
ghost use Rattle.chain.specs.Chains.{played};
ghost use Rattle.recordings.specs.Pair.{link_opening};
ghost use Rattle.capi.specs.Outcomes.{outcome_of};
ghost use Rattle.capi.specs.Playing.{filled_from, play_opened, after_opened, play_answer, after_play, PlaysChain};

use crate::outcome::{Iq, Outcome, play_into};
use crate::refusal::{Refusal, conclude};
use crate::report::Report;
use crate::texts::settings_of;
use chain::standard::standard_chain;
use recordings::pair::LinkRecordings;
use samples::gain_index::GainIndex;
use samples::kinds::ConverterSample;
use settings::settings::Settings;
use sources::source::Source;
use std::alloc::Global;

// Plays the chain into the buffer.
fn play_chain<S: Source<Item = ConverterSample> + Drop, G: Source<Item = GainIndex> + Drop>(
    settings: &Settings,
    signal: S,
    indices: G,
    out: &mut [Iq],
) -> Outcome
    ensures outcome { let w = played settings.now (S.whole signal) (G.whole indices) in
        result ≡ outcome_of (length out.old) w }
    ensures after { let w = played settings.now (S.whole signal) (G.whole indices) in
        out.new ≡ filled_from w out.old }
{
    let chain = standard_chain(settings, signal, indices);
    play_into(chain, out)
}

// Opens both recordings and plays the chain over them.
fn play_recordings(
    settings: &Settings,
    signal: &[u8],
    gain: &[u8],
    out: &mut [Iq],
) -> Result<Report, Refusal>
    ensures answer { let opened = link_opening signal.now gain.now in
        result ≡ play_opened settings.now opened (length out.old) }
    ensures buffer { out.new
        ≡ after_opened settings.now (link_opening signal.now gain.now) out.old }
{
    let LinkRecordings { signal, gain } = LinkRecordings::open(signal, gain)?;
    let rate = signal.rate();
    let outcome = play_chain(settings, signal, gain, out);
    Ok(Report::outcome(rate, outcome))
}

// Plays with the settings that were read; settings that are refused play nothing.
fn play(
    settings: Result<Settings, Refusal>,
    signal: &[u8],
    gain: &[u8],
    out: &mut [Iq],
) -> Result<Report, Refusal>
    ensures answer { result ≡ play_answer settings signal.now gain.now (length out.old) }
    ensures buffer { out.new ≡ after_play settings signal.now gain.now out.old }
{
    play_recordings(&settings?, signal, gain, out)
}

/// Plays the standard chain over a signal and a gain recording, with the settings of the text, from its start until the
/// buffer is full or the chain ends. The report has the signal's rate, how many samples came, and the ending if it is met.
/// Refused for the first line of the settings that is wrong (65) or refused (1 to 7, 13), where memory runs out (66), and for
/// bytes that do not open (8 to 11), the signal's before the gain's; the buffer then stays as it was.
#[unsafe(no_mangle)]
pub extern "C" fn tigwedan_play(
    heap: Global,
    signal: &[u8],
    gain: &[u8],
    settings: &[u8],
    out: &mut [Iq],
    report: &mut Report,
) -> u32
    ensures { PlaysChain settings.now signal.now gain.now out.old out.new report.new result }
{
    let made = settings_of(heap, settings);
    conclude(play(made, signal, gain, out), report)
}
