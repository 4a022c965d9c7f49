// The piles that are played, of random settings and inputs.
use crate::runs::inputs::{random_gains, random_settings, random_signal};
use crate::runs::random::Random;
use chain::standard::{StandardChain, standard_chain};
use samples::gain_index::GainIndex;
use samples::kinds::{ConverterSample, WorkingSample};
use samples::sample::Sample;
use settings::settings::Settings;
use sources::each::Each;
use sources::fault::Ending;
use sources::lead::Lead;
use sources::listed::Listed;
use sources::pairing::Pairing;
use sources::scan::Scan;
use sources::whole::Whole;
use stages::clock_offset::Clock;
use stages::frequency_offset::Rotator;
use stages::gain::{FixedGain, ReceiveGain};
use stages::multipath::Multipath;
use stages::noise::{Adding, Noise};
use stages::scaling::Scaling;
use std::alloc::Global;

// How many items of noise there are.
const NOISE_ITEMS: u32 = 150;

type Signal<'a> = Listed<'a, ConverterSample>;

type Indices<'a> = Listed<'a, GainIndex>;

type Scaled<'a> = Each<Signal<'a>, Scaling>;

type Echoes<'a> = Scan<Clock<Lead<Scaled<'a>>>, Multipath>;

type Turns<'a> = Scan<Scan<Scaled<'a>, Multipath>, Rotator>;

type Noisy<'a> = Each<Pairing<Each<Scaled<'a>, FixedGain<WorkingSample>>, Noise>, Adding>;

type Gained<'a> = Each<Pairing<Noise, Lead<Indices<'a>>>, ReceiveGain>;

// What piles are made of. Each call makes a pile anew.
#[derive(Drop)]
pub(crate) struct Inputs {
    settings: Settings,
    signal: Whole<ConverterSample, Ending>,
    gains: Whole<GainIndex, Ending>,
}

impl Inputs {
    pub(crate) fn random(heap: Global, random: &mut Random) -> anyhow::Result<Inputs> {
        let settings = random_settings(heap, random)?;
        let signal = random_signal(heap, random)?;
        let gains = random_gains(heap, random)?;
        Ok(Inputs {
            settings,
            signal,
            gains,
        })
    }

    fn signal(&self) -> Signal<'_> {
        Listed::new(self.signal.items.as_slice(), self.signal.ending)
    }

    fn indices(&self) -> Indices<'_> {
        Listed::new(self.gains.items.as_slice(), self.gains.ending)
    }

    fn noise(&self) -> Noise {
        Noise::new(self.settings.seeds, NOISE_ITEMS)
    }

    fn scaled(&self) -> Scaled<'_> {
        Each::new(self.settings.scale, self.signal())
    }

    // Multipath over clock offset over lead over scaling.
    pub(crate) fn echoes(&self) -> Echoes<'_> {
        let settings = &self.settings;
        let first = WorkingSample { re: 1000, im: -1 };
        let lead = Lead::new(settings.lead, first, self.scaled());
        let clocked = Clock::new(settings.clock_bypass, settings.clock, lead);
        Scan::new(Multipath::new(settings.paths), clocked)
    }

    // Frequency offset over multipath over scaling.
    pub(crate) fn turns(&self) -> Turns<'_> {
        let echoed = Scan::new(Multipath::new(self.settings.paths), self.scaled());
        Scan::new(Rotator::new(self.settings.frequency), echoed)
    }

    // Noise added to gain over scaling.
    pub(crate) fn noisy(&self) -> Noisy<'_> {
        let air = Each::new(FixedGain::new(self.settings.gain), self.scaled());
        Each::new(Adding, Pairing::new(air, self.noise()))
    }

    // Receive gain over noise, with its indices behind a lead.
    pub(crate) fn gained(&self) -> Gained<'_> {
        let lead = Lead::new(self.settings.lead, GainIndex::new(0), self.indices());
        let beside = Pairing::new(self.noise(), lead);
        Each::new(ReceiveGain::new(self.settings.receive_gains), beside)
    }

    // The standard chain.
    pub(crate) fn chain(&self) -> StandardChain<Signal<'_>, Indices<'_>> {
        standard_chain(&self.settings, self.signal(), self.indices())
    }
}
