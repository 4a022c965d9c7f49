// The files that a run reads.
ghost use Rattle.std.specs.Prelude.{◌≡◌};
ghost use Rattle.program.specs.Words.{without_mark};

use crate::failure::Failure;
use crate::printing::Refused;
use recordings::pair::Input;
use recordings::refusal::OpeningRefusal;

/// The files that a chain is made of. Without a settings file the settings are fresh.
#[derive(Clone, Copy, Debug)]
pub struct Inputs<'a> {
    /// The signal recording.
    pub signal: &'a str,
    /// The gain recording.
    pub gain: &'a str,
    /// The settings file.
    pub settings: Option<&'a str>,
}

impl<'a> Inputs<'a> {
    ghost use Rattle.std.specs.Prelude.{◌≡◌, Some, false};
    ghost use Rattle.program.specs.Inputs.{file_numbered, file_of};
    ghost use Rattle.program.specs.Refusals.{is_late, refusal_in};

    /// The file of a recording.
    pub fn file_of(&self, input: Input) -> &'a str
        ensures { result.now ≡ file_of self.now input }
    {
        match input {
            Input::Signal => self.signal,
            Input::Gain => self.gain,
        }
    }

    /// Why one of the recordings did not open.
    pub fn refused(&self, refusal: (Input, OpeningRefusal)) -> Failure<'a>
        ensures refusal { refusal_in result
            ≡ Some (file_of self.now refusal.0, refusal.1) }
        ensures early { is_late result ≡ false }
    {
        let (input, refusal) = refusal;
        Failure::Refused(self.file_of(input), Refused(refusal))
    }

    /// The file of the recording with this input number, as a fault names it.
    pub fn file_numbered(&self, number: u8) -> &'a str
        ensures { result.now ≡ file_numbered self.now number }
    {
        if number == Input::Signal.number() {
            self.signal
        } else {
            self.gain
        }
    }
}

// A byte-order mark, which some editors put at the head of a text file.
const MARK: [u8; 3] = [0xEF, 0xBB, 0xBF];

/// The bytes of a text file without a byte-order mark at their head.
pub fn without_mark(bytes: &[u8]) -> &[u8]
    ensures { result.now ≡ without_mark bytes.now }
{
    bytes.strip_prefix(&MARK).unwrap_or(bytes)
}
