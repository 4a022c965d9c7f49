// The lines of a file.
ghost use Rattle.std.specs.Prelude.{◌≡◌, ◌+◌, ◌<◌, ◌≤◌, [], ◌∷◌, length, MatchOption};
ghost use Rattle.text.specs.Lines.{FirstLine, lines_of, reported_number};
ghost use Rattle.std.specs.Iterator.{at_most};

use crate::numbered::Numbered;

/// What is left of a file, from the start of a line, and how many lines are before it. A line ends
/// at a line feed or at the end of the file.
#[derive(Drop)]
pub struct Lines<'a> {
    rest: &'a [u8],
    passed: u64,
}

impl<'a> Lines<'a> {
    /// All lines of the bytes; the first is line 1.
    pub fn of(bytes: &'a [u8]) -> Lines<'a>
        ensures rest { result.rest.now ≡ bytes.now }
        ensures passed { result.passed ≡ 0 }
    {
        Lines {
            rest: bytes,
            passed: 0,
        }
    }
}

// The first line, and what stands behind it and its line feed.
fn split_line<'a>(bytes: &'a [u8]) -> (&'a [u8], &'a [u8])
    ensures line { FirstLine bytes.now result.0.now result.1.now }
    ensures within { length result.0.now ≤ length bytes.now }
    ensures less { 0 < length bytes.now → length result.1.now < length bytes.now }
{
    match bytes.iter().position(|byte| *byte == b'\n') {
        Some(end) => (&bytes[..end], &bytes[end + 1..]),
        None => (bytes, &[]),
    }
}

impl<'a> Iterator for Lines<'a> {
    type Item = Numbered<&'a [u8]>;

    ghost next_gives = { λ s r t. MatchOption r ((s.rest.now ≡ []) × (t ≡ s)) (λ line.
        FirstLine s.rest.now line.held.now t.rest.now
        × (lines_of s.rest.now ≡ line.held.now ∷ lines_of t.rest.now)
        × (length t.rest.now < length s.rest.now)
        × (line.line ≡ reported_number (s.passed + 1)) × (t.passed ≡ line.line)) };

    ghost remaining = { λ s. at_most (length s.rest.now) };

    // The bytes up to the line feed, which is passed over.
    fn next(&mut self) -> Option<Numbered<&'a [u8]>> {
        if self.rest.is_empty() {
            return None;
        }
        let (held, left) = split_line(self.rest);
        self.rest = left;
        self.passed = self.passed.saturating_add(1);
        Some(Numbered {
            line: self.passed,
            held,
        })
    }
}
