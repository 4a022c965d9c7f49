// A clock offset: the receiver's clock runs a little faster or slower, so its samples stand between those below.
ghost use Rattle.std.specs.Prelude.{◌≡◌, ◌+◌, ◌-◌, ◌^◌, ◌<◌, ◌≤◌, List, ◌∷◌, length, pos, negsuc, ◌+ℤ◌, ◌≤ℤ◌, nat_le};
ghost use Rattle.samples.specs.Kinds.{silent};
ghost use Rattle.samples.specs.declared.kinds.WorkingSample.{WorkingSample as Working};
ghost use Rattle.sources.specs.Streams.{AtStart, answer, rest};
ghost use Rattle.stages.specs.ClockOffset.{clock_step, index, clocked, ExistsExactly, sample_between};
ghost use Rattle.sources.specs.Wholes.{transformed};

use samples::arithmetic::linear;
use samples::kinds::WorkingSample;
use sources::fault::Fault;
use sources::source::Source;

// One item below, in the units of a position.
const ITEM: u64 = 0x20_0000_0000_0000;

/// How much slower the receiver's sample clock is, -9,007,199,254,740 to 9,007,199,254,740, in units of 2^-53 of a sample: up to
/// a thousandth.
#[derive(Clone, Copy, PartialEq, Eq, Debug)]
pub struct ClockOffset {
    /// In units of 2^-53 of a sample.
    pub c: i64,
    ghost low: { negsuc 9007199254739 ≤ℤ c },
    ghost high: { c ≤ℤ pos 9007199254740 },
}

// The straight line between the two items that were drawn last, and where on it the next output stands.
#[derive(Drop)]
struct Line {
    before: WorkingSample,
    last: WorkingSample,
    // The next output's position, in units of 2^-53 of an item, from `before` on. At 2^53 and more it is past `last`.
    position: u64,
    // How far two outputs are apart, in the same units.
    step: u64,
    ghost moves: { 0 < step },
    // A clock is at most a thousandth slower than the signal's.
    ghost step_within: { step ≤ 2 ^ 53 + 9007199254740 },
    // The next output needs at most two items more.
    ghost near: { position < 2 ^ 53 + step },
}

// The sample f / 2^16 of the way from one to the next; no part needs a clip.
fn interpolate(from: WorkingSample, to: WorkingSample, f: u16) -> WorkingSample
    ensures { result ≡ sample_between from to f }
{
    WorkingSample {
        re: linear(from.re, to.re, f),
        im: linear(from.im, to.im, f),
    }
}

impl Line {
    ghost use Rattle.stages.specs.Meanings.{outputs_on};

    // The line before the first item, where every sample is 0. The first output stands at the first item.
    fn start(step: u64) -> Self
        requires { (0 < step) × (step ≤ 2 ^ 53 + 9007199254740) }
        ensures step { result.step ≡ step }
        ensures before { result.before ≡ silent }
        ensures last { result.last ≡ silent }
        ensures position { result.position ≡ 2 ^ 53 }
    {
        Line {
            before: WorkingSample::SILENCE,
            last: WorkingSample::SILENCE,
            position: ITEM,
            step,
        }
    }

    // Back to before the first item.
    fn restart(&mut self)
        ensures step { self.new.step ≡ self.old.step }
        ensures before { self.new.before ≡ silent }
        ensures last { self.new.last ≡ silent }
        ensures position { self.new.position ≡ 2 ^ 53 }
    {
        *self = Line::start(self.step);
    }

    // Whether the next output stands past the last item drawn.
    fn wants_item(&self) -> bool
        ensures { result ≡ nat_le (2 ^ 53) self.now.position }
    {
        self.position >= ITEM
    }

    // The next item below becomes the line's end.
    #[tactic(auto, using(crate::proofs::Outputs::drawn))]
    fn draw(&mut self, x: WorkingSample)
        requires { 2 ^ 53 ≤ self.old.position }
        ensures same { (xs : List Working) → outputs_on self.new xs ≡ outputs_on self.old (x ∷ xs) }
        ensures step { self.new.step ≡ self.old.step }
        ensures position { self.new.position ≡ self.old.position - 2 ^ 53 }
    {
        self.before = self.last;
        self.last = x;
        self.position -= ITEM;
    }

    // The output that stands between the two items drawn; the next one stands a step on.
    #[tactic(auto, using(crate::proofs::Outputs::handed))]
    fn output(&mut self) -> WorkingSample
        requires { self.old.position < 2 ^ 53 }
        ensures first { (xs : List Working) →
            outputs_on self.old xs ≡ result ∷ outputs_on self.new xs }
        ensures step { self.new.step ≡ self.old.step }
    {
        let y = interpolate(self.before, self.last, (self.position >> 37) as u16);
        self.position += self.step;
        y
    }

    // The next output over the items below. The line is drawn on only as far as the output needs: at most two items, none
    // early. An ending met on the way leaves the line as it stands, so the next call asks again.
    #[inline(always)]
    fn next_output<S: Source<Item = WorkingSample>>(
        &mut self,
        below: &mut S,
    ) -> Result<Option<WorkingSample>, Fault>
        ensures answers { result
            ≡ answer (transformed (outputs_on self.old) (S.Source.left below.old)) }
        ensures moves { transformed (outputs_on self.new) (S.Source.left below.new)
            ≡ rest (transformed (outputs_on self.old) (S.Source.left below.old)) }
        ensures same { S.Source.whole below.new ≡ S.Source.whole below.old }
        ensures step { self.new.step ≡ self.old.step }
        ensures draws { length (S.Source.left below.new).items
            ≡ length (S.Source.left below.old).items - index self.old.position }
    {
        while self.wants_item() {
            let Some(x) = below.next()? else {
                return Ok(None);
            };
            self.draw(x);
        }
        Ok(Some(self.output()))
    }
}

/// A line between the items below; none where the clock is bypassed.
#[derive(Drop)]
pub struct Clock<S> {
    line: Option<Line>,
    below: S,
}

impl<S: Source<Item = WorkingSample>> Clock<S> {
    ghost use Rattle.stages.specs.Meanings.{clock_whole, clock_left};

    /// Output m stands at position m × (2^53 + c), in units of 2^-53 of an item below. Bypassed, the items below pass.
    #[tactic(auto, using(crate::proofs::Outputs::restarted))]
    pub fn new(bypassed: bool, offset: ClockOffset, mut below: S) -> Self
        ensures starts { AtStart (clock_whole S.Source.whole result)
            (clock_left S.Source.left result)
            (clocked bypassed (clock_step offset.c) (S.Source.whole below)) }
        ensures step { pos (clock_step offset.c) ≡ pos (2 ^ 53) +ℤ offset.c }
        ensures exists { ExistsExactly (clock_step offset.c) }
    {
        below.rewind();
        let line = if bypassed {
            None
        } else {
            Some(Line::start((ITEM as i64 + offset.c) as u64))
        };
        Clock { line, below }
    }
}

impl<S: Source<Item = WorkingSample>> Source for Clock<S> {
    ghost use Rattle.stages.specs.Meanings.{clock_whole, clock_left, needed};

    type Item = WorkingSample;

    ghost whole = { clock_whole S.Source.whole };

    ghost left = { clock_left S.Source.left };

    // Draws as many items as the output needs, at most two, and none early.
    #[inline(always)]
    fn next(&mut self) -> Result<Option<WorkingSample>, Fault>
        ensures answers { result ≡ answer (clock_left S.Source.left self.old) }
        ensures moves { clock_left S.Source.left self.new
            ≡ rest (clock_left S.Source.left self.old) }
        ensures same { clock_whole S.Source.whole self.new ≡ clock_whole S.Source.whole self.old }
        ensures draws { length (S.Source.left self.new.below).items
            ≡ length (S.Source.left self.old.below).items - needed self.old.line }
    {
        match &mut self.line {
            Some(line) => line.next_output(&mut self.below),
            None => self.below.next(),
        }
    }

    #[tactic(auto, using(crate::proofs::Outputs::restarted))]
    fn rewind(&mut self) {
        self.below.rewind();
        if let Some(line) = &mut self.line {
            line.restart();
        }
    }
}
