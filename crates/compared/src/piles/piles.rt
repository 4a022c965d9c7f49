// The piles, from their lowest sources up.
use crate::piles::against_files::Piles;
use crate::piles::inputs::{Take, gain_bytes, open_gains, open_signal, signal_bytes};
use crate::piles::ranged;
use samples::gain_index::GainIndex;
use samples::kinds::{AirSample, ConverterSample, WorkingSample};
use samples::sample::Sample;
use settings::settings::RawPath;
use sources::each::Each;
use sources::held::Held;
use sources::lead::Lead;
use sources::pairing::Pairing;
use sources::scan::Scan;
use sources::source::Source;
use stages::amplifier::Amplifier;
use stages::clock_offset::Clock;
use stages::converter::Quantizer;
use stages::dc_offset::{DcOffset, Offset};
use stages::frequency_offset::{FrequencyOffset, Rotator};
use stages::gain::{FixedGain, ReceiveGain};
use stages::imbalance::{Balance, Imbalance};
use stages::multipath::Multipath;
use stages::noise::{Adding, Noise, Seeds};
use stages::scaling::Scaling;

// The paths below and above the clock.
const LOWER: [RawPath; 3] = [
    RawPath {
        re: 8192,
        im: 0,
        delay: 0,
    },
    RawPath {
        re: -3000,
        im: 2000,
        delay: 3,
    },
    RawPath {
        re: 1500,
        im: -2500,
        delay: 17,
    },
];

const UPPER: [RawPath; 3] = [
    RawPath {
        re: 6000,
        im: -1000,
        delay: 0,
    },
    RawPath {
        re: 4096,
        im: 0,
        delay: 1,
    },
    RawPath {
        re: 0,
        im: -8192,
        delay: 63,
    },
];

// An eighth of a turn a sample, and a little more.
const TURN: i64 = (1 << 45) + 12345;

// What leads in front of the pile that is turned: the corner of the range.
const CORNER: WorkingSample = WorkingSample {
    re: -32768,
    im: 32767,
};

// A signal on the air, with noise, and with the gains that its indices choose.
type OnAir<S> = Each<Each<S, Scaling>, FixedGain<WorkingSample>>;

type Noisy<S> = Each<Pairing<S, Noise>, Adding>;

type Gained<S, G> = Each<Pairing<S, Lead<G>>, ReceiveGain>;

// DC offset, imbalance and converter.
type Converted<S> = Each<Each<Each<S, DcOffset<AirSample>>, Imbalance<AirSample>>, Quantizer>;

// A signal on the air: scaling, and the gain of the path.
fn on_air<S: Source<Item = ConverterSample> + Drop>(signal: S) -> anyhow::Result<OnAir<S>> {
    let scaled = Each::new(Scaling { factor: 1631 }, signal);
    Ok(Each::new(FixedGain::new(ranged::gain(2, 155)?), scaled))
}

// Noise of so many items added.
fn noisy<S: Source<Item = AirSample>>(air: S, seeds: Seeds, items: u32) -> Noisy<S> {
    Each::new(Adding, Pairing::new(air, Noise::new(seeds, items)))
}

// The gain that an index chooses; the indices come behind a lead.
fn gained<S: Source<Item = AirSample> + Drop, G: Source<Item = GainIndex> + Drop>(
    air: S,
    indices: G,
) -> anyhow::Result<Gained<S, G>> {
    let lead = Lead::new(3, GainIndex::new(0), indices);
    let gains = ReceiveGain::new(ranged::receive_gains()?);
    Ok(Each::new(gains, Pairing::new(air, lead)))
}

// A receiver up to its gain, over a signal on the air with noise.
fn received<S: Source<Item = ConverterSample> + Drop, G: Source<Item = GainIndex> + Drop>(
    signal: S,
    indices: G,
) -> anyhow::Result<Gained<Noisy<OnAir<S>>, G>> {
    let on_air = noisy(on_air(signal)?, ranged::seeds(1, 12345)?, 100);
    gained(on_air, indices)
}

fn converted<S: Source<Item = AirSample>>(air: S) -> Converted<S> {
    let offset = Offset {
        re: -3000,
        im: 20000,
    };
    let balance = Balance {
        a: 15416,
        b: 17274,
        c: -905,
    };
    let shifted = Each::new(DcOffset::<AirSample>::new(offset), air);
    let balanced = Each::new(Imbalance::<AirSample>::new(balance), shifted);
    Each::new(Quantizer, balanced)
}

// A frequency offset over a clock offset over a lead.
fn turned<S: Source<Item = WorkingSample> + Drop>(
    below: S,
    c: i64,
) -> anyhow::Result<Scan<Clock<Lead<S>>, Rotator>> {
    let lead = Lead::new(4, CORNER, below);
    let clocked = Clock::new(false, ranged::clock_offset(c)?, lead);
    Ok(Scan::new(Rotator::new(FrequencyOffset { f: TURN }), clocked))
}

// Two multipaths around a clock offset.
pub(crate) fn multipaths_around_clock(
    piles: &mut Piles<'_>,
    name: &str,
    signal: Take,
    c: i64,
) -> anyhow::Result<()> {
    let bytes = signal_bytes(piles.heap(), signal)?;
    let scaled = Each::new(Scaling { factor: 2048 }, open_signal(bytes.as_slice())?);
    let lower = Scan::new(Multipath::new(ranged::paths(&LOWER)?), scaled);
    let clocked = Clock::new(false, ranged::clock_offset(c)?, lower);
    let upper = Scan::new(Multipath::new(ranged::paths(&UPPER)?), clocked);
    piles.compare(name, upper)
}

// A lead below a clock offset.
pub(crate) fn lead_below_clock(
    piles: &mut Piles<'_>,
    name: &str,
    signal: Take,
    c: i64,
) -> anyhow::Result<()> {
    let bytes = signal_bytes(piles.heap(), signal)?;
    let scaled = Each::new(Scaling { factor: 4096 }, open_signal(bytes.as_slice())?);
    let first = WorkingSample {
        re: 1234,
        im: -4321,
    };
    let lead = Lead::new(5, first, scaled);
    piles.compare(name, Clock::new(false, ranged::clock_offset(c)?, lead))
}

// A clock offset over another.
pub(crate) fn clock_over_clock(
    piles: &mut Piles<'_>,
    name: &str,
    signal: Take,
    lower: i64,
    upper: i64,
) -> anyhow::Result<()> {
    let bytes = signal_bytes(piles.heap(), signal)?;
    let scaled = Each::new(Scaling { factor: 4096 }, open_signal(bytes.as_slice())?);
    let once = Clock::new(false, ranged::clock_offset(lower)?, scaled);
    piles.compare(name, Clock::new(false, ranged::clock_offset(upper)?, once))
}

// An amplifier over a frequency offset of a 256th of a turn a sample: every magnitude and every phase.
pub(crate) fn amplified(piles: &mut Piles<'_>, name: &str, signal: Take) -> anyhow::Result<()> {
    let bytes = signal_bytes(piles.heap(), signal)?;
    let scaled = Each::new(Scaling { factor: 4096 }, open_signal(bytes.as_slice())?);
    let turning = Scan::new(Rotator::new(FrequencyOffset { f: 1 << 40 }), scaled);
    let amplifier = Amplifier::new(ranged::amplifier_table()?, false);
    piles.compare(name, Each::new(amplifier, turning))
}

// A frequency offset over another, of half a turn a sample.
pub(crate) fn turned_twice(piles: &mut Piles<'_>, name: &str, signal: Take) -> anyhow::Result<()> {
    let bytes = signal_bytes(piles.heap(), signal)?;
    let scaled = Each::new(Scaling { factor: 4096 }, open_signal(bytes.as_slice())?);
    let once = Scan::new(Rotator::new(FrequencyOffset { f: -(1 << 47) }), scaled);
    piles.compare(
        name,
        Scan::new(Rotator::new(FrequencyOffset { f: 675_539_944_106 }), once),
    )
}

// A lead over another.
pub(crate) fn lead_twice(piles: &mut Piles<'_>, name: &str, signal: Take) -> anyhow::Result<()> {
    let bytes = signal_bytes(piles.heap(), signal)?;
    let scaled = Each::new(Scaling { factor: 256 }, open_signal(bytes.as_slice())?);
    let lower = Lead::new(2, WorkingSample { re: 1, im: 2 }, scaled);
    piles.compare(name, Lead::new(3, WorkingSample { re: 3, im: 4 }, lower))
}

// A frequency offset over a clock offset over a lead over a held item.
pub(crate) fn turned_held(
    piles: &mut Piles<'_>,
    name: &str,
    times: u32,
    c: i64,
) -> anyhow::Result<()> {
    let item = WorkingSample {
        re: 20000,
        im: -30000,
    };
    piles.compare(name, turned(Held::new(item, times), c)?)
}

// The same over a signal.
pub(crate) fn turned_signal(
    piles: &mut Piles<'_>,
    name: &str,
    signal: Take,
    c: i64,
) -> anyhow::Result<()> {
    let bytes = signal_bytes(piles.heap(), signal)?;
    let scaled = Each::new(Scaling { factor: 3000 }, open_signal(bytes.as_slice())?);
    piles.compare(name, turned(scaled, c)?)
}

// Noise added twice, so many items each: the first source of a pairing is a pairing.
pub(crate) fn noise_twice(
    piles: &mut Piles<'_>,
    name: &str,
    signal: Take,
    inner: u32,
    outer: u32,
) -> anyhow::Result<()> {
    let bytes = signal_bytes(piles.heap(), signal)?;
    let air = on_air(open_signal(bytes.as_slice())?)?;
    let once = noisy(air, ranged::seeds(7, 8)?, inner);
    piles.compare(name, noisy(once, ranged::seeds(1, 12345)?, outer))
}

// A gain from air to air over the gain of the path, which clips the loudest samples.
pub(crate) fn gained_twice(piles: &mut Piles<'_>, name: &str, signal: Take) -> anyhow::Result<()> {
    let bytes = signal_bytes(piles.heap(), signal)?;
    let scaled = Each::new(Scaling { factor: 4096 }, open_signal(bytes.as_slice())?);
    let on_air = Each::new(
        FixedGain::<WorkingSample>::new(ranged::gain(17, 200)?),
        scaled,
    );
    let gain = FixedGain::<AirSample>::new(ranged::gain(-3, 201)?);
    piles.compare(name, Each::new(gain, on_air))
}

// A receiver up to its gain, over a signal on the air with noise and its gain indices.
pub(crate) fn receive_gain(
    piles: &mut Piles<'_>,
    name: &str,
    signal: Take,
    gains: Take,
) -> anyhow::Result<()> {
    let signal_bytes = signal_bytes(piles.heap(), signal)?;
    let gain_bytes = gain_bytes(piles.heap(), gains)?;
    let signal = open_signal(signal_bytes.as_slice())?;
    let indices = open_gains(gain_bytes.as_slice())?;
    piles.compare(name, received(signal, indices)?)
}

// The same up to its converter.
pub(crate) fn receiver(
    piles: &mut Piles<'_>,
    name: &str,
    signal: Take,
    gains: Take,
) -> anyhow::Result<()> {
    let signal_bytes = signal_bytes(piles.heap(), signal)?;
    let gain_bytes = gain_bytes(piles.heap(), gains)?;
    let signal = open_signal(signal_bytes.as_slice())?;
    let indices = open_gains(gain_bytes.as_slice())?;
    piles.compare(name, converted(received(signal, indices)?))
}
