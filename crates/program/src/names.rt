// The names of the files that hold one signal, and which of them are refused.
ghost use Rattle.std.specs.Prelude.{◌≡◌, IfOk, IfErr, OnOk, false, None, string_bytes};
ghost use Rattle.program.specs.Files.{counted_files};
ghost use Rattle.program.specs.Names.{Clears, Spares, SparesAll, name_before, numbered};
ghost use Rattle.program.specs.Refusals.{is_refused_by_writer, refusal_in};

use crate::failure::Failure;
use crate::host::Host;
use crate::inputs::Inputs;
use std::alloc::{AllocError, Global};
use std::path::Path;

// The name with its number before the ending, which has its dot; the name is spelt as it was.
fn name_before(heap: Global, to: &str, ending: &str, number: u32) -> Result<String, AllocError>
    ensures { IfOk result (λ name. string_bytes name ≡ name_before to.now number ending.now) }
{
    match to.strip_suffix(ending) {
        Some(stem) => format!(in heap; "{stem}-{number}{ending}"),
        None => format!(in heap; "{to}-{number}"),
    }
}

/// The name of file number `number`, from 1: out.wav, then out-2.wav, out-3.wav ..
pub fn file_name(heap: Global, to: &str, number: u32) -> Result<String, AllocError>
    ensures { IfOk result (λ name. string_bytes name ≡ numbered to.now number) }
{
    if number == 1 {
        return String::from_str(heap, to);
    }
    match Path::new(to).extension() {
        Some(ending) => {
            let ending = format!(in heap; ".{ending}")?;
            name_before(heap, to, ending.as_str(), number)
        }
        None => format!(in heap; "{to}-{number}"),
    }
}

/// How many files so many samples take; none takes one too. More than are counted are reported as 4294967295.
pub fn files_for(samples: u128) -> u32
    ensures { result ≡ counted_files samples }
{
    let files = samples.div_ceil(16373).max(1);
    files.min(u128::from(u32::MAX)) as u32
}

/// Refuses names under which something lies that is no recording.
pub fn clear<'a, H: Host>(heap: Global, host: &H, to: &str, files: u32) -> Result<(), Failure<'a>>
    ensures named { OnOk result (Clears (H.may_say_other host.now) to.now files) }
    ensures opened { IfErr result (λ e. refusal_in e ≡ None) }
    ensures accepted { IfErr result (λ e. is_refused_by_writer e ≡ false) }
{
    for number in 0..files {
        let other = file_name(heap, to, number.saturating_add(1))?;
        if host.holds_other(other.as_str()) {
            return Err(Failure::KeepsOther(other));
        }
    }
    Ok(())
}

/// Refuses names that lead to an input.
pub fn spare<'a, H: Host>(
    heap: Global,
    host: &H,
    input: &'a str,
    to: &str,
    files: u32,
) -> Result<(), Failure<'a>>
    ensures named { OnOk result (Spares (H.may_say_same host.now) input.now to.now files) }
    ensures opened { IfErr result (λ e. refusal_in e ≡ None) }
    ensures accepted { IfErr result (λ e. is_refused_by_writer e ≡ false) }
{
    for number in 0..files {
        let name = file_name(heap, to, number.saturating_add(1))?;
        if host.is_one_file(input, name.as_str()) {
            return Err(Failure::Overwrites(name, input));
        }
    }
    Ok(())
}

/// Refuses names that lead to any of the inputs, and those under which something lies that is no recording.
pub fn spare_inputs<'a, H: Host>(
    heap: Global,
    host: &H,
    inputs: &Inputs<'a>,
    to: &str,
    files: u32,
) -> Result<(), Failure<'a>>
    ensures spares { OnOk result (SparesAll (H.may_say_same host.now) (H.may_say_other host.now)
        inputs.now to.now files) }
    ensures opened { IfErr result (λ e. refusal_in e ≡ None) }
{
    spare(heap, host, inputs.signal, to, files)?;
    spare(heap, host, inputs.gain, to, files)?;
    if let Some(settings) = inputs.settings {
        spare(heap, host, settings, to, files)?;
    }
    clear(heap, host, to, files)
}
