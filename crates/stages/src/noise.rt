// Noise: air samples whose level is the number of ones in a shifting state, near to a bell curve about 0; and the stage that
// adds them to the signal.
ghost use Rattle.std.specs.Prelude.{◌≡◌, ◌<◌};
ghost use Rattle.sources.specs.Streams.{AtStart};
ghost use Rattle.stages.specs.Noise.{stepped, level, noise, summed};

use samples::kinds::AirSample;
use samples::sample::Sample;
use sources::each::Mapping;
use sources::fault::Fault;
use sources::source::Source;

/// The states that the two noise generators start from, one a part, 1 to 2^32 - 1. A generator at 0 would stay there.
#[derive(Clone, Copy, PartialEq, Eq, Debug)]
pub struct Seeds {
    /// Of the real part's generator.
    pub re: u32,
    /// Of the imaginary part's generator.
    pub im: u32,
    ghost re_moves: { 0 < re },
    ghost im_moves: { 0 < im },
}

// One step of a generator; bits above 31 are dropped.
fn step(v: u32) -> u32
    ensures { result ≡ stepped v }
{
    let v = v ^ (v << 13);
    let v = v ^ (v >> 17);
    v ^ (v << 5)
}

// The level that a state stands for, -3184 to 3184.
fn level_of(v: u32) -> i32
    ensures { result ≡ level v }
{
    (v.count_ones() as i32 - 16) * 199
}

/// So many air samples, 0 to 2^32 - 1, each part -2985 to 3184.
#[derive(Drop)]
pub struct Noise {
    seeds: Seeds,
    count: u32,
    // The generators' states, one a part.
    re: u32,
    im: u32,
    // How many samples are still to be handed out, at most `count`.
    remaining: u32,
}

impl Noise {
    ghost use Rattle.stages.specs.Meanings.{noise_whole, noise_left};

    /// `count` samples, 0 to 2^32 - 1.
    pub fn new(seeds: Seeds, count: u32) -> Self
        ensures { AtStart (noise_whole result) (noise_left result) (noise count seeds.re seeds.im) }
    {
        Noise {
            seeds,
            count,
            re: seeds.re,
            im: seeds.im,
            remaining: count,
        }
    }
}

impl Source for Noise {
    ghost use Rattle.stages.specs.Meanings.{noise_whole, noise_left};

    type Item = AirSample;

    ghost whole = { noise_whole };

    ghost left = { noise_left };

    #[inline(always)]
    fn next(&mut self) -> Result<Option<AirSample>, Fault> {
        if self.remaining == 0 {
            return Ok(None);
        }
        self.remaining -= 1;
        self.re = step(self.re);
        self.im = step(self.im);
        Ok(Some(AirSample {
            re: level_of(self.re),
            im: level_of(self.im),
        }))
    }

    fn rewind(&mut self) {
        self.re = self.seeds.re;
        self.im = self.seeds.im;
        self.remaining = self.count;
    }
}

/// Signal and noise to their sum.
#[derive(Clone, Copy)]
pub struct Adding;

impl Mapping for Adding {
    type From = (AirSample, AirSample);

    type To = AirSample;

    ghost formula = { λ _ x. summed x.0 x.1 };

    #[inline(always)]
    fn apply(&self, x: (AirSample, AirSample)) -> AirSample {
        let (signal, noise) = x;
        let re = i64::from(signal.re) + i64::from(noise.re);
        let im = i64::from(signal.im) + i64::from(noise.im);
        AirSample::new(re, im)
    }
}
