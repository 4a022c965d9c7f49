// A signal written to files. One recording has at most 65,536 bytes, so a long signal takes several.
ghost use Rattle.std.specs.Prelude.{◌≡◌, ◌+◌, ◌≤◌, max, IfOk, IfErr, OnOk, length, take, [], ◌∷◌, true, false, None};
ghost use Rattle.player.specs.Standing.{Stands};
ghost use Rattle.program.specs.Files.{Adds, closing, files_of, recording_of};
ghost use Rattle.program.specs.Names.{numbered};
ghost use Rattle.program.specs.Outcomes.{written_of};
ghost use Rattle.recordings.specs.Rates.{good_rate};
ghost use Rattle.program.specs.Refusals.{is_late, is_refused_by_writer, refusal_in};

use crate::block::{Block, ChainEnding, copies, next_block};
use crate::failure::Failure;
use crate::host::Host;
use crate::levels::Levels;
use crate::names::file_name;
use player::player::Player;
use recorder::session::write;
use recorder::started::{HEADER, MAX_BYTES};
use samples::kinds::ConverterSample;
use samples::sample::Sample;
use sources::source::Source;
use std::alloc::Global;

/// The most samples that fit a recording, 16373.
pub const MAX_SAMPLES: usize = (MAX_BYTES - HEADER) / 4;

// After so many files a line says how far the run has come.
const FILES_A_LINE: u32 = 64;

/// What was written: how many files, how many samples they hold, the levels of these, and how the signal ended.
#[derive(Clone, Copy, Debug)]
pub struct Written {
    /// How many files, at least 1.
    pub files: u32,
    /// How many samples they hold together.
    pub samples: u64,
    /// The levels of these samples.
    pub levels: Levels,
    /// How the signal ended.
    pub ending: ChainEnding,
}

// Puts the recording of the samples at the front of the buffer, and answers how long it is.
fn encode<'a>(
    samples: &[ConverterSample],
    rate: u32,
    bytes: &mut [u8],
) -> Result<usize, Failure<'a>>
    requires room { length bytes.old ≡ 65536 }
    requires fits { length samples.now ≤ 16373 }
    ensures within { IfOk result (λ n. n ≤ length bytes.new) }
    ensures holds { IfOk result (λ n. take n bytes.new ≡ recording_of rate samples.now) }
    ensures late { IfErr result (λ e. is_late e ≡ true) }
    ensures accepted { IfErr result (λ e. is_refused_by_writer e ≡ true → good_rate rate ≡ false) }
    ensures opened { IfErr result (λ e. refusal_in e ≡ None) }
{
    Ok(write(samples, rate, bytes)?)
}

// Writes the samples as file number `number`.
fn write_file<'a, H: Host>(
    heap: Global,
    host: &mut H,
    to: &str,
    number: u32,
    rate: u32,
    samples: &[ConverterSample],
    bytes: &mut [u8],
) -> Result<(), Failure<'a>>
    requires room { length bytes.old ≡ 65536 }
    requires fits { length samples.now ≤ 16373 }
    ensures file { OnOk result (Adds
        ((numbered to.now number, recording_of rate samples.now) ∷ [])
        (H.written host.old) (H.written host.new)) }
    ensures late { IfErr result (λ e. is_late e ≡ true) }
    ensures accepted { IfErr result (λ e. is_refused_by_writer e ≡ true → good_rate rate ≡ false) }
    ensures opened { IfErr result (λ e. refusal_in e ≡ None) }
{
    let length = encode(samples, rate, bytes)?;
    let name = file_name(heap, to, number)?;
    host.write(name.as_str(), &bytes[..length])
        .map_err(|error| Failure::Writing(name, error))
}

// A signal without samples takes one file too; answers how many files there are.
fn close<'a, H: Host>(
    heap: Global,
    host: &mut H,
    to: &str,
    files: u32,
    rate: u32,
    bytes: &mut [u8],
) -> Result<u32, Failure<'a>>
    requires { length bytes.old ≡ 65536 }
    ensures files { IfOk result (λ all. all ≡ max 1 files) }
    ensures written { OnOk result (Adds (closing to.now rate files)
        (H.written host.old) (H.written host.new)) }
    ensures late { IfErr result (λ e. is_late e ≡ true) }
    ensures accepted { IfErr result (λ e. is_refused_by_writer e ≡ true → good_rate rate ≡ false) }
    ensures opened { IfErr result (λ e. refusal_in e ≡ None) }
{
    if files > 0 {
        return Ok(files);
    }
    write_file(heap, host, to, 1, rate, &[], bytes)?;
    Ok(1)
}

// Reports how far a long run has come.
fn report_progress<'a, H: Host>(host: &H, samples: u64, files: u32) -> Result<(), Failure<'a>>
    ensures late { IfErr result (λ e. is_late e ≡ true) }
    ensures accepted { IfErr result (λ e. is_refused_by_writer e ≡ false) }
    ensures opened { IfErr result (λ e. refusal_in e ≡ None) }
{
    if files > 0 && files % FILES_A_LINE == 0 {
        host.report_progress(samples, files)?;
    }
    Ok(())
}

// Writes what the player hands out from the start of its whole.
fn write_played<'a, S: Source<Item = ConverterSample>, H: Host>(
    heap: Global,
    host: &mut H,
    player: &mut Player<S>,
    to: &str,
    rate: u32,
    block: &mut [ConverterSample],
    bytes: &mut [u8],
) -> Result<Written, Failure<'a>>
    requires start { Stands player.old player.old.whole 0 }
    requires block { length block.old ≡ 16373 }
    requires bytes { length bytes.old ≡ 65536 }
    ensures counts { IfOk result (λ written. written ≡ written_of player.old.whole) }
    ensures files { OnOk result (Adds (files_of to.now rate player.old.whole.items)
        (H.written host.old) (H.written host.new)) }
    ensures late { IfErr result (λ e. is_late e ≡ true) }
    ensures accepted { IfErr result (λ e. is_refused_by_writer e ≡ true → good_rate rate ≡ false) }
    ensures opened { IfErr result (λ e. refusal_in e ≡ None) }
{
    let mut samples = 0u64;
    let mut levels = Levels::none();
    for files in 0..u32::MAX {
        report_progress(host, samples, files)?;
        let Block { count, ending } = next_block(player, block);
        if let Some(ending) = ending {
            let files = close(heap, host, to, files, rate, bytes)?;
            return Ok(Written {
                files,
                samples,
                levels,
                ending,
            });
        }
        let played = &block[..count];
        write_file(heap, host, to, files + 1, rate, played, bytes)?;
        levels.note(played);
        samples += count as u64;
    }
    Err(Failure::TooManyFiles)
}

// Writes what a player hands out that stands at the start of its whole.
pub(crate) fn write_player<'a, S: Source<Item = ConverterSample> + Drop, H: Host>(
    heap: Global,
    host: &mut H,
    mut player: Player<S>,
    to: &str,
    rate: u32,
) -> Result<Written, Failure<'a>>
    requires start { Stands player player.whole 0 }
    ensures counts { IfOk result (λ written. written ≡ written_of player.whole) }
    ensures files { OnOk result (Adds (files_of to.now rate player.whole.items)
        (H.written host.old) (H.written host.new)) }
    ensures late { IfErr result (λ e. is_late e ≡ true) }
    ensures accepted { IfErr result (λ e. is_refused_by_writer e ≡ true → good_rate rate ≡ false) }
    ensures opened { IfErr result (λ e. refusal_in e ≡ None) }
{
    let mut block = copies(heap, ConverterSample::new(0, 0), MAX_SAMPLES)?;
    let mut bytes = copies(heap, 0u8, MAX_BYTES)?;
    write_played(
        heap,
        host,
        &mut player,
        to,
        rate,
        block.as_mut_slice(),
        bytes.as_mut_slice(),
    )
}

/// Writes the whole of the source at this rate to the file of this name, and what one recording does not hold to further files.
pub fn write_files<'a, S: Source<Item = ConverterSample> + Drop, H: Host>(
    heap: Global,
    host: &mut H,
    source: S,
    to: &str,
    rate: u32,
) -> Result<Written, Failure<'a>>
    ensures counts { IfOk result (λ written. written ≡ written_of (S.whole source)) }
    ensures files { OnOk result (Adds (files_of to.now rate (S.whole source).items)
        (H.written host.old) (H.written host.new)) }
    ensures late { IfErr result (λ e. is_late e ≡ true) }
    ensures accepted { IfErr result (λ e. is_refused_by_writer e ≡ true → good_rate rate ≡ false) }
    ensures opened { IfErr result (λ e. refusal_in e ≡ None) }
{
    write_player(heap, host, Player::new(source), to, rate)
}
