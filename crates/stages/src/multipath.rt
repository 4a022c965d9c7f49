// Multipath: the sum of delayed copies of the signal, each times a complex coefficient.
ghost use Rattle.std.specs.Prelude.{◌≡◌, ◌^◌, ◌<◌, ◌≤◌, length, take};
ghost use Rattle.samples.specs.Bounds.{Between};

use samples::complex::product;
use samples::kinds::WorkingSample;
use samples::sample::Sample;
use sources::scan::Memory;

/// One path of a multipath channel: a complex coefficient, 8192 for 1, and a delay of 0 to 63 samples.
#[derive(Clone, Copy, PartialEq, Eq, Debug)]
pub struct Path {
    /// The coefficient's real part, 8192 for 1.
    pub re: i16,
    /// Its imaginary part.
    pub im: i16,
    /// In samples, 0 to 63.
    pub delay: u8,
    ghost delay_within: { delay ≤ 63 },
}

impl Path {
    ghost use Rattle.stages.specs.Multipath.{echo_re, echo_im};

    // The echo of sample x on this path: coefficient × x.
    fn echo(&self, x: &WorkingSample) -> (i64, i64)
        ensures re { result.0 ≡ echo_re self.now x.now }
        ensures im { result.1 ≡ echo_im self.now x.now }
        ensures re_within { Between (2 ^ 31) result.0 }
        ensures im_within { Between (2 ^ 31) result.1 }
    {
        product((self.re, self.im), (x.re, x.im))
    }
}

/// The paths of a multipath channel: the first `count` of ten places, 1 to 10. Not a `Vec`: settings hold no heap, and making
/// them cannot run out of memory.
#[derive(Clone, Copy)]
pub struct Paths {
    /// The paths, and neutral ones behind them.
    pub places: [Path; 10],
    /// How many are in use, 1 to 10.
    pub count: usize,
    ghost ten: { length places ≡ 10 },
    ghost low: { 1 ≤ count },
    ghost high: { count ≤ 10 },
}

impl Paths {
    /// The paths themselves.
    pub fn in_use(&self) -> &[Path]
        ensures { result.now ≡ take self.now.count self.now.places }
    {
        &self.places[0..self.count]
    }
}

/// The echo line is a ring of the last 64 samples, the one j places back j places behind the newest, round the end. An array
/// and a place, not a deque: a stage holds no heap.
#[derive(Drop)]
pub struct Multipath {
    paths: Paths,
    echo_line: [WorkingSample; 64],
    newest: usize,
    ghost places: { length echo_line ≡ 64 },
    ghost inside: { newest < 64 },
}

impl Multipath {
    ghost use Rattle.stages.specs.Multipath.{used, echo_sum, silence, ring};

    /// Starts with an empty echo line.
    pub fn new(paths: Paths) -> Self
        ensures paths { result.paths ≡ paths }
        ensures starts { ring result.echo_line result.newest ≡ silence }
    {
        Multipath {
            paths,
            echo_line: [WorkingSample::SILENCE; 64],
            newest: 0,
        }
    }

    // The sample `delay` places back from the newest one. Lent, so that its parts are read one by one, as they were written: the
    // processor waits where a word is read that was just written in halves.
    fn back(&self, delay: u8) -> &WorkingSample
        ensures { result.now ≡ ring self.now.echo_line self.now.newest delay }
    {
        &self.echo_line[(self.newest + delay as usize) & 63]
    }

    // The sum of the echoes of all paths, rounded down and clipped once. It takes the paths in order, and
    // stops behind the last that counts.
    fn echo_sum(&self) -> WorkingSample
        ensures { result
            ≡ echo_sum (used self.now.paths) (ring self.now.echo_line self.now.newest) }
    {
        let mut re: i64 = 0;
        let mut im: i64 = 0;
        for (i, path) in self.paths.places.iter().enumerate() {
            if i >= self.paths.count {
                break;
            }
            let x = self.back(path.delay);
            let (echo_re, echo_im) = path.echo(x);
            re += echo_re;
            im += echo_im;
        }
        WorkingSample::divided(re, im, 13)
    }
}

impl Memory for Multipath {
    ghost use Rattle.stages.specs.Multipath.{used, echoes, length_echoes, silence, ring};

    type From = WorkingSample;

    type To = WorkingSample;

    ghost makes = { λ s xs. echoes (used s.paths) (ring s.echo_line s.newest) xs };

    ghost fresh = { λ s xs. echoes (used s.paths) silence xs };

    ghost same_length = { λ s xs. length_echoes (used s.paths) (ring s.echo_line s.newest) xs };

    #[inline(always)]
    fn step(&mut self, x: WorkingSample) -> WorkingSample {
        self.newest = (self.newest + 63) & 63;
        self.echo_line[self.newest] = x;
        self.echo_sum()
    }

    fn reset(&mut self) {
        self.echo_line = [WorkingSample::SILENCE; 64];
    }
}
