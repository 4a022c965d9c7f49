// What stands in a line, with the line's number.
ghost use Rattle.text.specs.Messages.{numbered_text};

use std::fmt;

/// What stands in a line, with the line's number.
#[derive(Clone, Copy, Debug, Drop)]
pub struct Numbered<T> {
    /// From 1; from line 2^64 − 1 on, that number.
    pub line: u64,
    /// What the line holds.
    pub held: T,
}

/// `4: TEXT`, if what stands there tells TEXT.
impl<T: fmt::Display> fmt::Display for Numbered<T> {
    ghost output = { λ numbered. numbered_text T.output numbered };

    fn fmt<W: fmt::Write>(&self, f: &mut fmt::Formatter<W>) -> fmt::Result {
        let line = self.line;
        let held = &self.held;
        write!(f, "{line}: {held}")
    }
}
