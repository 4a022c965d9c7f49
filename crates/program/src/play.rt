// The command `play`: the standard chain over two recordings, written to files.
ghost use Rattle.std.specs.Prelude.{◌≡◌, IfOk, IfErr, OnOk, true, false, None, Ok};
ghost use Rattle.chain.specs.Chains.{played};
ghost use Rattle.recordings.specs.Pair.{link_opening};
ghost use Rattle.program.specs.Files.{Adds, files_of};
ghost use Rattle.program.specs.Names.{SparesAll};
ghost use Rattle.program.specs.Outcomes.{files_taken, written_of, Plays};
ghost use Rattle.program.specs.Refusals.{is_late, refusal_in, refusal_of_link};
ghost use Rattle.program.specs.Sides.{sides_of};

use crate::check::count;
use crate::failure::Failure;
use crate::host::Host;
use crate::inputs::Inputs;
use crate::names::{file_name, files_for, spare_inputs};
use crate::sides::{Sides, gain_side_of, signal_side_of};
use crate::written::{Written, write_player};
use chain::playing::standard_player;
use recordings::pair::{Input, LinkRecordings};
use samples::gain_index::GainIndex;
use samples::kinds::ConverterSample;
use settings::settings::Settings;
use sources::source::Source;
use std::alloc::Global;

/// What `play` did: where the first and the last file stand, the rate, what was written, and which recording ended first,
/// if the chain finished and they did not end together.
#[derive(Debug, Drop)]
pub struct Played<'a> {
    /// The name of the first file.
    pub to: &'a str,
    /// The name of the last file.
    pub last: String,
    /// In samples a second, the signal's.
    pub rate: u32,
    /// What the files hold.
    pub written: Written,
    /// The recording that ended first.
    pub first_ended: Option<Input>,
}

// Generic in both sources, so that the player's type holds no lifetime of a recording.
fn play_chain<
    'a,
    S: Source<Item = ConverterSample> + Drop,
    G: Source<Item = GainIndex> + Drop,
    H: Host,
>(
    heap: Global,
    host: &mut H,
    settings: &Settings,
    signal: S,
    gain: G,
    to: &str,
    rate: u32,
) -> Result<Written, Failure<'a>>
    ensures counts { IfOk result (λ written. written
        ≡ written_of (played settings.now (S.whole signal) (G.whole gain))) }
    ensures files { OnOk result (Adds
        (files_of to.now rate (played settings.now (S.whole signal) (G.whole gain)).items)
        (H.written host.old) (H.written host.new)) }
    ensures late { IfErr result (λ e. is_late e ≡ true) }
    ensures opened { IfErr result (λ e. refusal_in e ≡ None) }
{
    let player = standard_player(settings, signal, gain);
    write_player(heap, host, player, to, rate)
}

// How many items both sides of the receiver have, from what both sources have left, which is passed over. A recording has
// never more than are counted.
fn sides_of<'a, S: Source<Item = ConverterSample>, G: Source<Item = GainIndex>>(
    settings: &Settings,
    signal: &mut S,
    gain: &mut G,
) -> Result<Sides, Failure<'a>>
    ensures answer { IfOk result (λ sides. sides
        ≡ sides_of settings.now (S.left signal.old) (G.left gain.old)) }
    ensures signal { S.whole signal.new ≡ S.whole signal.old }
    ensures gain { G.whole gain.new ≡ G.whole gain.old }
    ensures opened { IfErr result (λ e. refusal_in e ≡ None) }
{
    let samples = count(signal).items;
    let indices = count(gain).items;
    if samples == u64::MAX || indices == u64::MAX {
        return Err(Failure::TooManyFiles);
    }
    Ok(Sides {
        signal: signal_side_of(settings, samples),
        gain: gain_side_of(settings, indices),
    })
}

/// Plays the standard chain over the bytes of a signal and of a gain recording, and writes what comes out, from its start to its
/// end, to the file `to` and further ones. A recording that does not open is refused, the signal first, and so is a run
/// that would write over one of its inputs, or over what is no recording; then nothing is written.
pub fn play<'a, H: Host>(
    heap: Global,
    host: &mut H,
    settings: &Settings,
    inputs: &Inputs<'a>,
    signal: &[u8],
    gain: &[u8],
    to: &'a str,
) -> Result<Played<'a>, Failure<'a>>
    ensures plays { IfOk result (Plays settings.now (link_opening signal.now gain.now) to.now
        (H.written host.old) (H.written host.new)) }
    ensures spares { OnOk result (SparesAll (H.may_say_same host.old) (H.may_say_other host.old)
        inputs.now to.now (files_taken settings.now (link_opening signal.now gain.now))) }
    ensures refuses { IfErr result (λ e. refusal_in e
        ≡ refusal_of_link inputs.now (link_opening signal.now gain.now)) }
    ensures keeps { IfErr result (λ e. is_late e ≡ false
        → H.written host.new ≡ H.written host.old) }
{
    match LinkRecordings::open(signal, gain) {
        Ok(
            LinkRecordings {
                mut signal,
                mut gain,
            },
        ) => {
            let rate = signal.rate();
            let sides = sides_of(settings, &mut signal, &mut gain)?;
            let files = files_for(sides.signal.min(sides.gain));
            spare_inputs(heap, host, inputs, to, files)?;
            let written = play_chain(heap, host, settings, signal, gain, to, rate)?;
            let last = file_name(heap, to, written.files)?;
            Ok(Played {
                to,
                last,
                rate,
                written,
                first_ended: sides.first_ended(&written.ending),
            })
        }
        Err(refusal) => Err(inputs.refused(refusal)),
    }
}
