// Numbers that stand one behind the other, each of its own kind.
ghost use Rattle.std.specs.Prelude.{◌≡◌, ℕ, List, [], ◌∷◌, MatchResult};
ghost use Rattle.text.specs.Faults.{Kind, kind_of, Lacks, TakesRow, OneSays, TwoSay, ThreeSay};
ghost use Rattle.text.specs.Taking.{numbers_left};

use crate::fault::Wrong;
use crate::number::Number;
use crate::numbers::Numbers;

/// One, two or three numbers in a row.
pub trait Row: Drop + Sized {
    /// The type of the row's first number.
    ghost kind: { Kind };

    /// The types of the numbers behind it.
    ghost kinds_behind: { List Kind };

    /// What words say the row.
    ghost Says: { List (List ℕ) → Self → Type 0 };

    /// The row that begins with the word.
    fn read(first: &str, behind: &mut Numbers<'_>) -> Result<Self, Wrong>
        ensures read { MatchResult result
            (TakesRow (kind ∷ kinds_behind) Says
            (first.now ∷ numbers_left behind.old) (numbers_left behind.new))
            (Lacks behind.old.form.now (kind ∷ kinds_behind)
            (first.now ∷ numbers_left behind.old)) }
        ensures form { behind.new.form ≡ behind.old.form };
}

// One impl a length: the tuple's type differs.
impl<A: Number> Row for (A,) {
    ghost kind = { kind_of A.spelled A.range };

    ghost kinds_behind = { [] };

    ghost Says = { λ words row. OneSays A.spelled words row.0 };

    fn read(first: &str, behind: &mut Numbers<'_>) -> Result<(A,), Wrong> {
        Ok((behind.of_word(first)?,))
    }
}

impl<A: Number, B: Number> Row for (A, B) {
    ghost kind = { kind_of A.spelled A.range };

    ghost kinds_behind = { kind_of B.spelled B.range ∷ [] };

    ghost Says = { λ words row. TwoSay A.spelled B.spelled words row.0 row.1 };

    fn read(first: &str, behind: &mut Numbers<'_>) -> Result<(A, B), Wrong> {
        let a = behind.of_word(first)?;
        let b = behind.number()?;
        Ok((a, b))
    }
}

impl<A: Number, B: Number, C: Number> Row for (A, B, C) {
    ghost kind = { kind_of A.spelled A.range };

    ghost kinds_behind = { kind_of B.spelled B.range ∷ kind_of C.spelled C.range ∷ [] };

    ghost Says = { λ words row. ThreeSay A.spelled B.spelled C.spelled words row.0 row.1 row.2 };

    fn read(first: &str, behind: &mut Numbers<'_>) -> Result<(A, B, C), Wrong> {
        let a = behind.of_word(first)?;
        let b = behind.number()?;
        let c = behind.number()?;
        Ok((a, b, c))
    }
}
