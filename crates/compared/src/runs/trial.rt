// Runs: random calls, carried out by a player and by the plain player.
use crate::runs::piles::Inputs;
use crate::runs::plain::Plain;
use crate::runs::random::Random;
use anyhow::ensure;
use comparison::tally::Tally;
use player::calls::{Answer, Call};
use player::run::run;
use samples::sample::Sample;
use sources::source::Source;
use sources::whole::Whole;
use std::alloc::{AllocError, Global};
use std::fmt;

// How many runs are made over each shape of pile.
const RUNS: u32 = 2000;

// How many calls a run has.
const CALLS: u32 = 40;

// How many runs and calls were compared, how many of the answers are faults, and how many runs were wrong.
#[derive(Clone, Copy)]
pub(crate) struct Counts {
    pub(crate) runs: Tally,
    calls: u64,
    faults: u64,
}

impl Counts {
    fn new() -> Counts {
        Counts {
            runs: Tally::new(),
            calls: 0,
            faults: 0,
        }
    }

    fn add(&mut self, other: Counts) {
        self.runs.add(other.runs);
        self.calls = self.calls.saturating_add(other.calls);
        self.faults = self.faults.saturating_add(other.faults);
    }
}

impl fmt::Display for Counts {
    fn fmt<W: fmt::Write>(&self, f: &mut fmt::Formatter<W>) -> fmt::Result {
        let runs = self.runs.cases;
        let calls = self.calls;
        let faults = self.faults;
        let wrong = self.runs.wrong;
        write!(
            f,
            "{runs} runs, {calls} calls, {faults} of them faults, {wrong} wrong"
        )
    }
}

// A buffer with random content, so that one sees which places stay.
fn random_buffer<T: Sample>(heap: Global, random: &mut Random) -> Result<Vec<T>, AllocError> {
    (0..random.below(24))
        .map(|_| T::new(i64::from(random.word()), i64::from(random.word())))
        .collect(heap)
}

fn random_call<T: Sample>(heap: Global, random: &mut Random) -> Result<Call<T>, AllocError> {
    match random.below(12) {
        0 => Ok(Call::Rewind),
        1 => Ok(Call::Skip(u32::MAX)),
        2 | 3 => Ok(Call::Skip(random.below(20))),
        4..=6 => Ok(Call::Next),
        _ => Ok(Call::Fill(random_buffer(heap, random)?)),
    }
}

// The same calls for the same random numbers.
fn random_calls<T: Sample>(heap: Global, mut random: Random) -> Result<Vec<Call<T>>, AllocError> {
    (0..CALLS)
        .map(|_| random_call(heap, &mut random))
        .try_collect(heap)
}

fn is_fault<T>(answer: &Answer<T>) -> bool {
    matches!(
        answer,
        Answer::Item(Err(_)) | Answer::Filled(Err(_), _) | Answer::Skipped(Err(_))
    )
}

// A trial of players over piles of one shape.
#[derive(Drop)]
pub(crate) struct Trial {
    heap: Global,
    random: Random,
    counts: Counts,
}

impl Trial {
    // Compares a run over the pile with the plain player's over another that was made the same way.
    pub(crate) fn compare<S: Source + Drop>(
        &mut self,
        pile: S,
        mut same: S,
    ) -> Result<(), AllocError>
    where
        S::Item: Sample + PartialEq,
    {
        self.random.number();
        let mut plain = Plain::new(Whole::of(self.heap, &mut same)?);
        let answers = run(self.heap, pile, random_calls(self.heap, self.random)?)?;
        let calls = random_calls(self.heap, self.random)?;
        let mut right = answers.len() == calls.len();
        for (call, answer) in calls.into_iter().zip(answers.iter()) {
            right = plain.answer(call) == *answer && right;
            if is_fault(answer) {
                self.counts.faults = self.counts.faults.saturating_add(1);
            }
        }
        self.counts.runs.count(right);
        self.counts.calls = self.counts.calls.saturating_add(u64::from(CALLS));
        Ok(())
    }
}

// The trials of all shapes, one after the other.
#[derive(Drop)]
pub(crate) struct Trials<'r> {
    rt: &'r HostRuntime,
    random: Random,
    all: Counts,
}

impl<'r> Trials<'r> {
    pub(crate) fn new(rt: &'r HostRuntime, random: Random) -> Self {
        Trials {
            rt,
            random,
            all: Counts::new(),
        }
    }

    // Makes inputs over and over, and lets them be compared; prints how many runs of the shape that was.
    pub(crate) fn over<F: Fn(&Inputs, &mut Trial) -> Result<(), AllocError> + Drop>(
        &mut self,
        shape: &str,
        compare: F,
    ) -> anyhow::Result<()>
        requires { F.IsAlwaysCallable compare }
    {
        let heap = self.rt.alloc();
        let mut trial = Trial {
            heap,
            random: self.random,
            counts: Counts::new(),
        };
        for _ in 0..RUNS {
            let inputs = Inputs::random(heap, &mut trial.random)?;
            compare(&inputs, &mut trial)?;
        }
        let counts = trial.counts;
        println!(self.rt; "{shape}: {counts}")?;
        self.random = trial.random;
        self.all.add(counts);
        Ok(())
    }

    // The counts of all runs; an error where one is wrong.
    // Each program counts something else, and says it in its own words.
    pub(crate) fn close(self) -> anyhow::Result<()> {
        let Trials { rt, random: _, all } = self;
        println!(rt; "{all}")?;
        ensure!(
            all.runs.wrong == 0,
            "a player answers otherwise than the plain player"
        );
        Ok(())
    }
}
