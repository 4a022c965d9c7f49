// Numbers as they stand in a line: decimal digits, with an optional sign.
ghost use Rattle.std.specs.Prelude.{◌≡◌, ℕ, List, Option, Result};
ghost use Rattle.std.specs.Result.{result_ok};
ghost use Rattle.text.specs.Numbers.{unsigned, signed, switch, u8_range, u16_range, u32_range, i16_range, i64_range, switch_range};
ghost use Rattle.text.specs.Reading.{unsigned_reads, signed_reads};
ghost use mir.Syntax.{w16, w64};

use std::str::FromStr;

/// A type of number that a word can be read as.
pub trait Number: Copy + FromStr<Err: Drop> {
    /// Which numbers these are, in words.
    ghost range: { List ℕ };

    /// The number that a word spells, if it is one of these.
    ghost spelled: { List ℕ → Option Self };

    /// Which numbers these are, in words.
    fn range() -> &'static str
        ensures { result.now ≡ range };

    /// The number that the word spells, if it is one of these.
    fn read(word: &str) -> Option<Self>
        ensures { result ≡ spelled word.now }
    {
        word.parse::<Self>().ok()
    }

    /// Parsing a word gives the number that it spells.
    ghost reads: { (word : List ℕ) (r : Result Self Self.Err)
        → Self.from_str_gives word r → result_ok r ≡ spelled word };
}

// One impl a type: the words for its range differ.
impl Number for u8 {
    ghost range = { u8_range };

    ghost spelled = { unsigned 8 };

    ghost reads = { λ word r h. unsigned_reads 8 word r h.0 };

    fn range() -> &'static str {
        "a whole number from 0 to 255"
    }
}

impl Number for u16 {
    ghost range = { u16_range };

    ghost spelled = { unsigned 16 };

    ghost reads = { λ word r h. unsigned_reads 16 word r h.0 };

    fn range() -> &'static str {
        "a whole number from 0 to 65535"
    }
}

impl Number for u32 {
    ghost range = { u32_range };

    ghost spelled = { unsigned 32 };

    ghost reads = { λ word r h. unsigned_reads 32 word r h.0 };

    fn range() -> &'static str {
        "a whole number from 0 to 4294967295"
    }
}

impl Number for i16 {
    ghost range = { i16_range };

    ghost spelled = { signed 15 };

    ghost reads = { λ word r h. signed_reads w16 word r h.0 };

    fn range() -> &'static str {
        "a whole number from -32768 to 32767"
    }
}

impl Number for i64 {
    ghost range = { i64_range };

    ghost spelled = { signed 63 };

    ghost reads = { λ word r h. signed_reads w64 word r h.0 };

    fn range() -> &'static str {
        "a whole number from -9223372036854775808 to 9223372036854775807"
    }
}

/// A switch, which is on at 1 and off at 0.
#[derive(Clone, Copy)]
pub struct Switch(pub bool);

/// A word that is neither 0 nor 1.
#[derive(Debug, Drop)]
pub struct NoSwitch;

impl FromStr for Switch {
    type Err = NoSwitch;

    ghost from_str_gives = { λ word r. result_ok r ≡ switch word };

    fn from_str(word: &str) -> Result<Switch, NoSwitch> {
        match word {
            "0" => Ok(Switch(false)),
            "1" => Ok(Switch(true)),
            _ => Err(NoSwitch),
        }
    }
}

impl Number for Switch {
    ghost range = { switch_range };

    ghost spelled = { switch };

    ghost reads = { λ word r h. h };

    fn range() -> &'static str {
        "0 or 1"
    }
}
