// Where two lists first differ.
ghost use Rattle.std.specs.Prelude.{◌≡◌, not};
ghost use Rattle.std.specs.List.{position, zip};
ghost use Rattle.sources.specs.Differences.{difference};

// The first place up to which both reach and at which they differ.
fn first_unequal<T: PartialEq>(one: &[T], other: &[T]) -> Option<usize>
    ensures { result ≡ position (λ p. not (T.eq p.0 p.1)) (zip one.now other.now) }
{
    one.iter().zip(other).position(|(x, y)| *x != *y)
}

/// The first place, from 0, at which the lists differ; where one of them begins the other, the place behind it.
#[tactic(auto, using(crate::proofs::Prefixes::by_agreement))]
pub fn first_difference<T: PartialEq>(one: &[T], other: &[T]) -> Option<usize>
    ensures { result ≡ difference T.eq one.now other.now }
{
    let shorter = one.len().min(other.len());
    let agreed = first_unequal(one, other).unwrap_or(shorter);
    if agreed == one.len() && agreed == other.len() {
        None
    } else {
        Some(agreed)
    }
}
