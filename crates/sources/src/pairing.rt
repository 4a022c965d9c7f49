// A pairing: two sources side by side, item by item. What is done with a pair is a stage over the pairing.
ghost use Rattle.std.specs.Prelude.{◌≡◌, []};
ghost use Rattle.sources.specs.Streams.{AtStart, answer, rest};
ghost use Rattle.sources.specs.Meanings.{pairing_whole, pairing_left};
ghost use Rattle.sources.specs.Wholes.{paired, kept_before};

use crate::fault::Fault;
use crate::source::Source;

/// Two sources, item beside item.
#[derive(Drop)]
pub struct Pairing<A: Source, B> {
    first: A,
    second: B,
    // An item of the first that was taken while its partner was missing.
    kept: Option<A::Item>,
}

impl<A: Source, B: Source> Pairing<A, B> {
    /// Pairs as long as both sources last.
    pub fn new(mut first: A, mut second: B) -> Self
        ensures { AtStart (pairing_whole A.Source.whole B.Source.whole result)
            (pairing_left A.Source.left B.Source.left result)
            (paired (A.Source.whole first) (B.Source.whole second)) }
    {
        first.rewind();
        second.rewind();
        Pairing {
            first,
            second,
            kept: None,
        }
    }
}

impl<A: Source, B: Source> Source for Pairing<A, B> {
    type Item = (A::Item, B::Item);

    ghost whole = { pairing_whole A.Source.whole B.Source.whole };

    ghost left = { pairing_left A.Source.left B.Source.left };

    // The second source is asked only where the first has an item.
    #[inline(always)]
    fn next(&mut self) -> Result<Option<(A::Item, B::Item)>, Fault>
        ensures answers { result ≡ answer (pairing_left A.Source.left B.Source.left self.old) }
        ensures moves { pairing_left A.Source.left B.Source.left self.new
            ≡ rest (pairing_left A.Source.left B.Source.left self.old) }
        ensures same { pairing_whole A.Source.whole B.Source.whole self.new
            ≡ pairing_whole A.Source.whole B.Source.whole self.old }
        ensures not_asked { (kept_before self.old.kept (A.Source.left self.old.first)).items ≡ []
            → self.new.second ≡ self.old.second }
    {
        let x = match self.kept {
            Some(x) => x,
            None => match self.first.next()? {
                Some(x) => x,
                None => return Ok(None),
            },
        };
        let partner = self.second.next();
        // Written only now, so that the item stays in a register where its partner comes.
        self.kept = match partner {
            Ok(Some(_)) => None,
            _ => Some(x),
        };
        Ok(partner?.map(|y| (x, y)))
    }

    fn rewind(&mut self) {
        self.first.rewind();
        self.second.rewind();
        self.kept = None;
    }
}
