// How many items the two sides of the receiver have: the signal that comes to it, and its gain indices.
ghost use Rattle.std.specs.Prelude.{◌≡◌};
ghost use Rattle.program.specs.Sides.{gain_side, signal_side};

use recordings::pair::Input;
use settings::settings::Settings;
use std::cmp::Ordering;

/// How many items the signal has that comes to the receiver, and how many gain indices stand beside it.
#[derive(Clone, Copy, PartialEq, Eq, Debug)]
pub struct Sides {
    /// Samples that come to the receiver.
    pub signal: u128,
    /// Gain indices beside them.
    pub gain: u128,
}

/// How many samples a signal of so many has when it comes to the receiver. A clock offset changes their number, and noise
/// is made for 4294967295.
pub fn signal_side_of(settings: &Settings, items: u64) -> u128
    ensures { result ≡ signal_side settings.now items }
{
    let most = u128::from(u32::MAX);
    if settings.clock_bypass {
        return u128::from(items).min(most);
    }
    let step = u128::from(((1i64 << 53) + settings.clock.c).unsigned_abs());
    let count = (u128::from(items) * (1u128 << 53) + (step - 1)) / step;
    count.min(most)
}

/// How many gain indices stand beside the samples, with the lead.
pub fn gain_side_of(settings: &Settings, items: u64) -> u128
    ensures { result ≡ gain_side settings.now items }
{
    u128::from(settings.lead) + u128::from(items)
}

impl Sides {
    ghost use Rattle.std.specs.Prelude.{◌≡◌};
    ghost use Rattle.program.specs.Sides.{first_ended, shorter_side};

    /// Which side has fewer items; none if both have as many.
    pub fn shorter(&self) -> Option<Input>
        ensures { result ≡ shorter_side self.now }
    {
        match self.signal.cmp(&self.gain) {
            Ordering::Less => Some(Input::Signal),
            Ordering::Greater => Some(Input::Gain),
            Ordering::Equal => None,
        }
    }

    /// Which side ended a chain that ended so; none at a fault.
    pub fn first_ended<F>(&self, ending: &Result<(), F>) -> Option<Input>
        ensures { result ≡ first_ended ending.now self.now }
    {
        match ending {
            Ok(()) => self.shorter(),
            Err(_) => None,
        }
    }
}
