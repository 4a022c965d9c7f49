// The standard chain, whole.
ghost use Rattle.std.specs.Prelude.{◌≡◌};
ghost use Rattle.chain.specs.Chains.{linked, played};
ghost use Rattle.sources.specs.Streams.{AtStart};
ghost use Rattle.chain.specs.Meanings.{link_whole, link_left, chain_whole, chain_left};

use samples::gain_index::GainIndex;
use samples::kinds::{AirSample, ConverterSample, WorkingSample};
use settings::settings::Settings;
use sources::each::Each;
use sources::fault::Fault;
use sources::lead::Lead;
use sources::pairing::Pairing;
use sources::scan::Scan;
use sources::source::Source;
use stages::amplifier::Amplifier;
use stages::clock_offset::Clock;
use stages::converter::Quantizer;
use stages::dc_offset::DcOffset;
use stages::frequency_offset::Rotator;
use stages::gain::{FixedGain, ReceiveGain};
use stages::imbalance::Imbalance;
use stages::multipath::Multipath;
use stages::noise::{Adding, Noise};
use stages::scaling::Scaling;

// How many items of noise there are.
const NOISE_ITEMS: u32 = u32::MAX;

// The chain's stages, each over those before it.
type Shifted<S> = Each<S, DcOffset<WorkingSample>>;

type Balanced<S> = Each<Shifted<S>, Imbalance<WorkingSample>>;

type Amplified<S> = Each<Balanced<S>, Amplifier>;

type Echoed<S> = Scan<Amplified<S>, Multipath>;

type Turned<S> = Scan<Echoed<S>, Rotator>;

type Resampled<S> = Clock<Turned<S>>;

type OnAir<S> = Each<Resampled<S>, FixedGain<WorkingSample>>;

type Noisy<S> = Each<Pairing<OnAir<S>, Noise>, Adding>;

type Received<S, G> = Each<Pairing<Noisy<S>, Lead<G>>, ReceiveGain>;

type RxShifted<S, G> = Each<Received<S, G>, DcOffset<AirSample>>;

type RxBalanced<S, G> = Each<RxShifted<S, G>, Imbalance<AirSample>>;

type Converted<S, G> = Each<RxBalanced<S, G>, Quantizer>;

/// The chain over a source of working samples, which stands in for the signal and its scaling.
#[derive(Drop)]
pub struct Link<S: Source<Item = WorkingSample>, G: Source<Item = GainIndex>> {
    stages: Converted<S, G>,
}

impl<S: Source<Item = WorkingSample>, G: Source<Item = GainIndex>> Link<S, G> {
    /// The chain with these settings, at its start. They are fixed here: later changes of them do not reach the chain.
    pub fn new(settings: &Settings, signal: S, indices: G) -> Self
        ensures { AtStart (link_whole S.Source.whole G.Source.whole result)
            (link_left S.Source.left G.Source.left result)
            (linked settings.now (S.Source.whole signal) (G.Source.whole indices)) }
    {
        let shifted = Each::new(DcOffset::new(settings.tx_dc), signal);
        let balanced = Each::new(Imbalance::new(settings.tx_imbalance), shifted);
        let amplifier = Amplifier::new(settings.amplifier, settings.amplifier_bypass);
        let amplified = Each::new(amplifier, balanced);
        let echoed = Scan::new(Multipath::new(settings.paths), amplified);
        let turned = Scan::new(Rotator::new(settings.frequency), echoed);
        let resampled = Clock::new(settings.clock_bypass, settings.clock, turned);
        let on_air = Each::new(FixedGain::new(settings.gain), resampled);
        let noise = Noise::new(settings.seeds, NOISE_ITEMS);
        let noisy = Each::new(Adding, Pairing::new(on_air, noise));
        let chosen = Lead::new(settings.lead, GainIndex::new(0), indices);
        let gains = ReceiveGain::new(settings.receive_gains);
        let received = Each::new(gains, Pairing::new(noisy, chosen));
        let rx_shifted = Each::new(DcOffset::new(settings.rx_dc), received);
        let rx_balanced = Each::new(Imbalance::new(settings.rx_imbalance), rx_shifted);
        let stages = Each::new(Quantizer, rx_balanced);
        Link { stages }
    }
}

impl<S: Source<Item = WorkingSample>, G: Source<Item = GainIndex>> Source for Link<S, G> {
    type Item = ConverterSample;

    ghost whole = { link_whole S.Source.whole G.Source.whole };

    ghost left = { link_left S.Source.left G.Source.left };

    #[inline(always)]
    fn next(&mut self) -> Result<Option<ConverterSample>, Fault> {
        self.stages.next()
    }

    fn rewind(&mut self) {
        self.stages.rewind();
    }
}

/// The chain over a signal of converter samples.
pub type StandardChain<S, G> = Link<Each<S, Scaling>, G>;

/// The standard chain over a signal and its gain indices, at its start. Whatever plays the standard chain makes it here.
pub fn standard_chain<S: Source<Item = ConverterSample>, G: Source<Item = GainIndex>>(
    settings: &Settings,
    signal: S,
    indices: G,
) -> StandardChain<S, G>
    ensures { AtStart (chain_whole S.Source.whole G.Source.whole result)
        (chain_left S.Source.left G.Source.left result)
        (played settings.now (S.Source.whole signal) (G.Source.whole indices)) }
{
    let scaled = Each::new(settings.scale, signal);
    Link::new(settings, scaled, indices)
}
