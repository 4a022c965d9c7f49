// Settings that change nothing.
use stages::amplifier::Entry;
use stages::gain::Gain;
use stages::multipath::Path;

// The signal itself: coefficient 1, no delay.
pub(crate) const NEUTRAL_PATH: Path = Path {
    re: 8192,
    im: 0,
    delay: 0,
};

// A gain of 1: 128 × 2^(1 - 8).
pub(crate) const UNIT_GAIN: Gain = Gain {
    shift: 1,
    factor: 128,
};

// Full amplitude, the phase not turned.
pub(crate) const FULL_ENTRY: Entry = Entry {
    amplitude: 32767,
    phase: 0,
};
