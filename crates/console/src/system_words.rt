// The system's words for a call that failed.
ghost use Rattle.io.specs.Counts.{IsPrefixLen};

use std::fmt;
use std::io::Error;

// The start of a text that is written: what is longer than the room for it is cut off.
#[derive(Drop)]
struct Written {
    bytes: [u8; 256],
    len: usize,
}

impl Written {
    fn new() -> Self {
        Self {
            bytes: [0; 256],
            len: 0,
        }
    }

    fn push(&mut self, byte: u8) {
        if let Some(place) = self.bytes.get_mut(self.len) {
            *place = byte;
            self.len += 1;
        }
    }
}

impl fmt::Write for Written {
    fn write_str(&mut self, text: &str) -> fmt::Result {
        for byte in text.as_bytes() {
            self.push(*byte);
        }
        Ok(())
    }
}

// How long the words are that stand before the number: std puts it behind them, as " (os error 2)". An error of its own has none.
fn words_end(text: &[u8]) -> usize
    ensures { IsPrefixLen result text.now }
{
    text.iter()
        .rposition(|byte| *byte == b'(')
        .map_or(text.len(), |place| place.saturating_sub(1))
}

// Puts the words at the start of lent bytes: how long they are.
pub fn system_words(error: &Error, out: &mut [u8; 256]) -> usize
    ensures { IsPrefixLen result out.new }
{
    let mut written = Written::new();
    let _ = fmt::Write::write(&mut written, error);
    let len = written.len.min(256);
    *out = written.bytes;
    words_end(&out[..len])
}
