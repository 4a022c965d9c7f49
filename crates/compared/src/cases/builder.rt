// Byte strings from words.
//
// `"abcd"` stands for its letters (`_` for a space), `w7` and `d7` for a number in 16 and 32 bits, the lowest byte first,
// `x0AFF` for bytes in hexadecimal, and `length` for the number of all bytes less 8, in 32 bits (`length+1` and
// `length-1` are one off). `head`, `signal` and `gain` are the head, and the format chunk of each kind at rate 8000. A
// word behind which `*5` stands comes five times.
use anyhow::anyhow;
use std::alloc::Global;

// A field for the length: where it stands, and what it adds to the number of all bytes.
#[derive(Clone, Copy)]
struct Length {
    at: usize,
    adds: i64,
}

// A byte string that grows.
#[derive(Drop)]
struct Builder {
    bytes: Vec<u8>,
    length: Option<Length>,
}

// The words that a word stands for.
fn spelled(word: &str) -> &str {
    match word {
        "head" => "\"RIFF\" length \"WAVE\"",
        "signal" => "\"fmt_\" d16 w1 w2 d8000 d32000 w4 w12",
        "gain" => "\"fmt_\" d16 w1 w1 d8000 d8000 w1 w8",
        _ => word,
    }
}

impl Builder {
    fn letters(&mut self, text: &str) -> anyhow::Result<()> {
        for letter in text.bytes().filter(|letter| *letter != b'"') {
            self.bytes.push(if letter == b'_' { b' ' } else { letter })?;
        }
        Ok(())
    }

    // Leaves room for the length, which is known at the end.
    fn length(&mut self, adds: i64) -> anyhow::Result<()> {
        let at = self.bytes.len();
        self.length = Some(Length { at, adds });
        Ok(self.bytes.extend_from_slice(&[0; 4])?)
    }

    fn word(&mut self, word: &str) -> anyhow::Result<()> {
        if word.starts_with('"') {
            self.letters(word)
        } else if let Some(number) = word.strip_prefix('w') {
            let bytes = number.parse::<u16>()?.to_le_bytes();
            Ok(self.bytes.extend_from_slice(&bytes)?)
        } else if let Some(number) = word.strip_prefix('d') {
            let bytes = number.parse::<u32>()?.to_le_bytes();
            Ok(self.bytes.extend_from_slice(&bytes)?)
        } else if let Some(digits) = word.strip_prefix('x') {
            let bytes = hex::decode(*self.bytes.allocator(), digits)?;
            Ok(self.bytes.extend_from_slice(bytes.as_slice())?)
        } else {
            match word {
                "length" => self.length(-8),
                "length+1" => self.length(-7),
                "length-1" => self.length(-9),
                _ => Err(anyhow!("a word of the bytes is unknown")),
            }
        }
    }

    fn repeated(&mut self, word: &str) -> anyhow::Result<()> {
        let Some((once, times)) = word.split_once('*') else {
            return self.word(word);
        };
        for _ in 0..times.parse::<u32>()? {
            self.word(once)?;
        }
        Ok(())
    }

    fn finish(self) -> anyhow::Result<Vec<u8>> {
        let Builder { mut bytes, length } = self;
        if let Some(Length { at, adds }) = length {
            let length = i64::try_from(bytes.len())?.saturating_add(adds);
            let field = u32::try_from(length)?.to_le_bytes();
            for (room, byte) in bytes.iter_mut().skip(at).zip(field) {
                *room = byte;
            }
        }
        Ok(bytes)
    }
}

// The byte string that the words spell.
pub(crate) fn bytes(heap: Global, words: &str) -> anyhow::Result<Vec<u8>> {
    let mut builder = Builder {
        bytes: Vec::new(heap),
        length: None,
    };
    for part in words
        .split_whitespace()
        .flat_map(|word| spelled(word).split_whitespace())
    {
        builder.repeated(part)?;
    }
    builder.finish()
}
