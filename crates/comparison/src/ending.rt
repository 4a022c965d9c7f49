// Endings in words.
ghost use Rattle.comparison.specs.Endings.{ends_text};

use std::fmt;

/// How something ends: `finished`, or what ended it.
#[derive(Clone, Copy, Debug)]
pub struct Ends<F>(pub Result<(), F>);

impl<F: fmt::Display> fmt::Display for Ends<F> {
    ghost output = { λ e. ends_text F.output e.0 };

    fn fmt<W: fmt::Write>(&self, f: &mut fmt::Formatter<W>) -> fmt::Result {
        match &self.0 {
            Ok(()) => write!(f, "finished"),
            Err(fault) => write!(f, "{fault}"),
        }
    }
}
