// A run of the program: what its words ask for is read from the host and done.
ghost use Rattle.std.specs.Prelude.{◌≡◌, IfOk, IfErr, None, false, map, max, string_bytes};
ghost use Rattle.std.specs.Option.{option_map};
ghost use Rattle.chain.specs.Chains.{played};
ghost use Rattle.recordings.specs.Pair.{BothAtStart, link_opening};
ghost use Rattle.program.specs.Bench.{TimedOf};
ghost use Rattle.program.specs.Refusals.{is_late, refusal_in, refusal_of_link};
ghost use Rattle.program.specs.Runs.{Called, Chosen, Does, DoesTask, Fails, OfChain, Refuses, Replays, Reports, Times};
ghost use Rattle.program.specs.declared.arguments.Command.TheVariants as commands;

use crate::arguments::{Command, Task, parse};
use crate::bench::{Timed, time_player};
use crate::check::check;
use crate::copy::copy;
use crate::demonstration::demonstrate;
use crate::failure::Failure;
use crate::host::Host;
use crate::inputs::{Inputs, without_mark};
use crate::play::play;
use crate::printing::Refused;
use crate::replay::{compare_blocks, replay_steps};
use crate::report::{Outcome, Report};
use chain::playing::standard_player;
use recordings::pair::{Input, LinkRecordings};
use samples::gain_index::GainIndex;
use samples::kinds::ConverterSample;
use settings::settings::Settings;
use sources::source::Source;
use std::alloc::Global;
use text::entries::read_all;
use text::numbered::Numbered;
use text::settings_file::reader;
use text::transcript::step::Step;

fn bytes_of<'a, H: Host>(host: &H, file: &'a str) -> Result<Vec<u8>, Failure<'a>>
    ensures read { IfOk result (λ bytes. H.may_read host.now file.now bytes.items) }
    ensures opened { IfErr result (λ e. refusal_in e ≡ None) }
{
    host.read(file)
        .map_err(|error| Failure::Reading(file, error))
}

// The settings of the file, or fresh ones if there is none.
fn settings_of<'a, H: Host>(
    heap: Global,
    host: &H,
    file: Option<&'a str>,
) -> Result<Settings, Failure<'a>>
    ensures chosen { IfOk result
        (Chosen (H.may_read host.now) (option_map (λ name. name.now) file.entry)) }
    ensures opened { IfErr result (λ e. refusal_in e ≡ None) }
{
    let Some(file) = file else {
        return Ok(Settings::fresh());
    };
    let bytes = bytes_of(host, file)?;
    reader::read(heap, without_mark(bytes.as_slice())).map_err(|fault| Failure::Settings(
        file, fault,
    ))
}

// The calls of the file.
fn steps_of<'a, H: Host>(
    heap: Global,
    host: &H,
    file: &'a str,
) -> Result<Vec<Numbered<Step>>, Failure<'a>>
    ensures called { IfOk result (λ steps. Called (H.may_read host.now) file.now steps.items) }
    ensures opened { IfErr result (λ e. refusal_in e ≡ None) }
{
    let bytes = bytes_of(host, file)?;
    read_all(heap, without_mark(bytes.as_slice())).map_err(|wrong| Failure::Calls(file, wrong))
}

fn run_check<'a, H: Host>(host: &H, input: Input, file: &'a str) -> Outcome<'a>
    ensures does { IfOk result (Does
        (H.may_read host.now) (H.may_say_same host.now) (H.may_say_other host.now)
        (H.written host.now) (H.written host.now) (commands.Check input file.entry)) }
    ensures refuses { IfErr result (Refuses (H.may_read host.now)
        (commands.Check input file.entry)) }
{
    let bytes = bytes_of(host, file)?;
    match check(bytes.as_slice(), input) {
        Ok(contents) => Ok(Report::Checked(file, input, contents)),
        Err(refusal) => Err(Failure::Refused(file, Refused(refusal))),
    }
}

fn run_copy<'a, H: Host>(heap: Global, host: &mut H, from: &'a str, to: &'a str) -> Outcome<'a>
    ensures does { IfOk result (Does
        (H.may_read host.old) (H.may_say_same host.old) (H.may_say_other host.old)
        (H.written host.old) (H.written host.new) (commands.Copy from.entry to.entry)) }
    ensures refuses { IfErr result (Refuses (H.may_read host.old)
        (commands.Copy from.entry to.entry)) }
    ensures keeps { IfErr result (λ e. is_late e ≡ false
        → H.written host.new ≡ H.written host.old) }
{
    let bytes = bytes_of(host, from)?;
    let copied = copy(heap, host, from, bytes.as_slice(), to)?;
    Ok(Report::Copied(from, copied))
}

// Opens both recordings.
fn open<'a, 'b>(
    inputs: &Inputs<'a>,
    signal: &'b [u8],
    gain: &'b [u8],
) -> Result<LinkRecordings<'b>, Failure<'a>>
    ensures opens { IfOk result (BothAtStart (link_opening signal.now gain.now)) }
    ensures refuses { IfErr result (λ e. refusal_in e
        ≡ refusal_of_link inputs.now (link_opening signal.now gain.now)) }
{
    match LinkRecordings::open(signal, gain) {
        Ok(opened) => Ok(opened),
        Err(refusal) => Err(inputs.refused(refusal)),
    }
}

// Plays the chain in blocks, and makes the calls on a player. The blocks come first: what they take of memory is given back
// before the answers take theirs. Where there is too little for the blocks, the answers are reported all the same.
fn run_replay<'a>(
    heap: Global,
    settings: &Settings,
    inputs: Inputs<'a>,
    signal: &[u8],
    gain: &[u8],
    steps: Vec<Numbered<Step>>,
) -> Outcome<'a>
    ensures replays { IfOk result (λ report.
        OfChain (Replays steps.items report) settings.now (link_opening signal.now gain.now)) }
    ensures refuses { IfErr result (λ e. refusal_in e
        ≡ refusal_of_link inputs.entry (link_opening signal.now gain.now)) }
{
    let opened = open(&inputs, signal, gain)?;
    let compared = compare_blocks(heap, settings, opened.signal, opened.gain).ok();
    let again = open(&inputs, signal, gain)?;
    let answers = replay_steps(heap, settings, again.signal, again.gain, steps.as_slice())?;
    if compared.is_none() && steps.is_empty() {
        return Err(Failure::Memory);
    }
    Ok(Report::Replayed(steps, answers, compared))
}

// Generic in both sources, so that the player's type holds no lifetime of a recording.
fn time_chain<
    'a,
    S: Source<Item = ConverterSample> + Drop,
    G: Source<Item = GainIndex> + Drop,
    H: Host,
>(
    heap: Global,
    host: &H,
    settings: &Settings,
    signal: S,
    gain: G,
    runs: u32,
) -> Result<Timed, Failure<'a>>
    ensures timed { IfOk result
        (TimedOf (played settings.now (S.whole signal) (G.whole gain))) }
    ensures runs { IfOk result (λ timed. timed.runs ≡ max 1 runs) }
    ensures opened { IfErr result (λ e. refusal_in e ≡ None) }
{
    let player = standard_player(settings, signal, gain);
    time_player(heap, host, player, runs)
}

fn run_bench<'a, H: Host>(
    heap: Global,
    host: &H,
    settings: &Settings,
    inputs: Inputs<'a>,
    signal: &[u8],
    gain: &[u8],
    runs: u32,
) -> Outcome<'a>
    ensures times { IfOk result (λ report.
        OfChain (Times inputs.entry runs report) settings.now (link_opening signal.now gain.now)) }
    ensures refuses { IfErr result (λ e. refusal_in e
        ≡ refusal_of_link inputs.entry (link_opening signal.now gain.now)) }
{
    let opened = open(&inputs, signal, gain)?;
    let timed = time_chain(heap, host, settings, opened.signal, opened.gain, runs)?;
    Ok(Report::Timed(inputs, timed))
}

// All files are read, and all settings accepted, before anything is done.
fn run_chain<'a, H: Host>(
    heap: Global,
    host: &mut H,
    inputs: Inputs<'a>,
    task: Task<'a>,
) -> Outcome<'a>
    ensures does { IfOk result (DoesTask
        (H.may_read host.old) (H.may_say_same host.old) (H.may_say_other host.old)
        (H.written host.old) (H.written host.new) inputs.entry task.entry) }
    ensures refuses { IfErr result (Refuses (H.may_read host.old)
        (commands.Chain inputs.entry task.entry)) }
    ensures keeps { IfErr result (λ e. is_late e ≡ false
        → H.written host.new ≡ H.written host.old) }
{
    let settings = settings_of(heap, host, inputs.settings)?;
    let signal = bytes_of(host, inputs.signal)?;
    let gain = bytes_of(host, inputs.gain)?;
    match task {
        Task::Play(to) => {
            let played = play(
                heap,
                host,
                &settings,
                &inputs,
                signal.as_slice(),
                gain.as_slice(),
                to,
            )?;
            Ok(Report::Played(inputs, played))
        }
        Task::Replay(file) => {
            let steps = steps_of(heap, host, file)?;
            run_replay(
                heap,
                &settings,
                inputs,
                signal.as_slice(),
                gain.as_slice(),
                steps,
            )
        }
        Task::Bench(runs) => {
            run_bench(
                heap,
                host,
                &settings,
                inputs,
                signal.as_slice(),
                gain.as_slice(),
                runs,
            )
        }
    }
}

/// Does what the words behind the program's own name ask for.
pub fn run<'a, H: Host>(heap: Global, host: &mut H, words: &'a [String]) -> Outcome<'a>
    ensures reports { IfOk result (Reports
        (H.may_read host.old) (H.may_say_same host.old) (H.may_say_other host.old)
        (map string_bytes words.now) (H.written host.old) (H.written host.new)) }
    ensures fails { IfErr result (Fails (H.may_read host.old) (map string_bytes words.now)) }
    ensures keeps { IfErr result (λ e. is_late e ≡ false
        → H.written host.new ≡ H.written host.old) }
{
    match parse(heap, words)? {
        Command::Demonstrate => Ok(Report::Demonstrated(demonstrate(heap)?)),
        Command::Help => Ok(Report::Usage),
        Command::Version => Ok(Report::Version),
        Command::Check(input, file) => run_check(host, input, file),
        Command::Copy(from, to) => run_copy(heap, host, from, to),
        Command::Chain(inputs, task) => run_chain(heap, host, inputs, task),
    }
}
