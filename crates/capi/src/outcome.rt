// Listening to a source by a player: how many items come, and how they end.
ghost use Rattle.std.specs.Prelude.{◌≡◌, ◌<◌, length, if◌then◌else◌, Some, None, nat_lt};
ghost use Rattle.capi.specs.Outcomes.{outcome_of, most};
ghost use Rattle.capi.specs.Playing.{parts, filled_from};

use player::player::Player;
use samples::kinds::ConverterSample;
use sources::each::{Each, Mapping};
use sources::fault::Ending;
use sources::source::Source;

/// How many items came, and how the items end, if the end was met.
#[derive(Clone, Copy)]
pub struct Outcome {
    /// How many items came.
    pub items: u64,
    /// How they end; none if no more items were wanted than came.
    pub ending: Option<Ending>,
}

/// A converter sample, with the fields of `struct tigwedan_sample` in their order.
#[repr(C)]
#[derive(Clone, Copy)]
pub struct Iq {
    /// The real part, -2048 to 2047.
    pub re: i16,
    /// The imaginary part, -2048 to 2047.
    pub im: i16,
}

// The ending, if fewer items came than were wanted.
fn ending_met<S: Source>(player: &mut Player<S>, came: u64, wanted: u64) -> Option<Ending>
    requires { came < wanted → length player.old.left.items ≡ 0 }
    ensures { result ≡ (if nat_lt came wanted then Some player.old.left.ending else None) }
{
    if came < wanted {
        Some(player.next().map(|_| ()).map_err(|fault| fault.fault))
    } else {
        None
    }
}

// Counts the items of the source.
pub(crate) fn count<S: Source + Drop>(source: S) -> Outcome
    ensures { result ≡ outcome_of most (S.Source.whole source) }
{
    let mut player = Player::new(source);
    let items = player.skip(u32::MAX).unwrap_or(0) as u64;
    let ending = ending_met(&mut player, items, u32::MAX as u64);
    Outcome { items, ending }
}

// Takes a sample apart.
#[derive(Clone, Copy)]
struct Parts;

impl Mapping for Parts {
    type From = ConverterSample;

    type To = Iq;

    ghost formula = { λ _ x. parts x };

    #[inline(always)]
    fn apply(&self, x: ConverterSample) -> Iq {
        Iq { re: x.re, im: x.im }
    }
}

// Fills the buffer from the start of the source.
pub(crate) fn play_into<S: Source<Item = ConverterSample> + Drop>(
    source: S,
    out: &mut [Iq],
) -> Outcome
    ensures answer { result ≡ outcome_of (length out.old) (S.Source.whole source) }
    ensures buffer { out.new ≡ filled_from (S.Source.whole source) out.old }
{
    let apart = Each::new(Parts, source);
    let mut player = Player::new(apart);
    let items = player.fill(out).unwrap_or(0) as u64;
    let ending = ending_met(&mut player, items, out.len() as u64);
    Outcome { items, ending }
}
