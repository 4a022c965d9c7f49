// What a source has left, for `for` loops and chains of iterators.
ghost use Rattle.std.specs.Prelude.{◌≡◌};
ghost use Rattle.std.specs.Iterator.{YieldsFirst, item_count};

use crate::source::Source;

/// The items that a source has left, one by one. How they end, the source answers after them.
#[derive(Drop)]
pub struct Items<'a, S> {
    source: &'a mut S,
}

impl<'a, S: Source> Items<'a, S> {
    pub(crate) fn new(source: &'a mut S) -> Items<'a, S>
        ensures source { result.source.now ≡ source.old }
        ensures same_reference { result.source.ghost_name ≡ source.entry.ghost_name }
    {
        Items { source }
    }
}

impl<'a, S: Source> Iterator for Items<'a, S> {
    type Item = S::Item;

    // The first item of what is left, which then loses it; the ending, the whole and the source that is asked stay.
    ghost next_gives = { λ s r t. YieldsFirst (λ i. (S.Source.left i.source.now).items) s r t
        × ((S.Source.left t.source.now).ending ≡ (S.Source.left s.source.now).ending)
        × (S.Source.whole t.source.now ≡ S.Source.whole s.source.now)
        × (t.source.ghost_name ≡ s.source.ghost_name) };

    ghost remaining = { item_count (λ i. (S.Source.left i.source.now).items) };

    fn next(&mut self) -> Option<S::Item> {
        self.source.next().unwrap_or(None)
    }
}
