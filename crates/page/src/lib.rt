// Text that is to be shown, by value: what was put on a page is an equation. A page has room for 1024 bytes, and what no longer fits is cut off.
#![tactic(auto)]

pub mod numbers;
pub mod times;

ghost use Rattle.std.specs.Prelude.{◌≡◌, [], ◌+◌, ◌-◌, ◌≤◌, min, length, replicate};
ghost use Rattle.std.proofs.Math.Seq.{paste};
ghost use Rattle.page.specs.Characters.{blank};
ghost use Rattle.page.specs.Pages.{text_of, extended, left_text};

// The text is the first `len` bytes. A page whose len is above 1024 is full. A buffer of its own, since nothing here is on a heap.
#[derive(Clone, Copy)]
pub struct Page {
    pub bytes: [u8; 1024],
    pub len: usize,
}

// The first `count` bytes of a text, copied to a place.
fn copied(bytes: [u8; 1024], at: usize, text: &[u8], count: usize) -> [u8; 1024]
    requires { (at + count ≤ 1024) × (count ≤ length text.now) }
    ensures { result ≡ paste bytes at text.now count }
{
    let mut out = bytes;
    out[at..at + count].copy_from_slice(&text[..count]);
    out
}

fn blanks() -> [u8; 1024]
    ensures { result ≡ replicate 1024 blank }
{
    [b' '; 1024]
}

impl Page {
    pub fn blank() -> Page
        ensures { text_of result ≡ [] }
    {
        Page {
            bytes: [0; 1024],
            len: 0,
        }
    }

    // How many bytes the text has: the first so many of `bytes` are the text.
    pub fn count(self) -> usize
        ensures { (result ≡ length (text_of self)) × (result ≤ 1024) }
    {
        self.len.min(1024)
    }

    pub fn put(self, text: &[u8]) -> Page
        ensures { text_of result ≡ extended (text_of self) text.now }
    {
        let at = self.len.min(1024);
        let count = (1024 - at).min(text.len());
        let bytes = self.bytes;
        Page {
            bytes: copied(bytes, at, text, count),
            len: at + count,
        }
    }

    pub fn put_blanks(self, count: usize) -> Page
        ensures { text_of result ≡ extended (text_of self) (replicate count blank) }
    {
        let all = blanks();
        let most = count.min(1024);
        self.put(&all[..most])
    }

    // A text at the left of a column of `width` places.
    pub fn put_left(self, text: &[u8], width: usize) -> Page
        ensures { text_of result ≡ extended (text_of self) (left_text width text.now) }
    {
        let page = self.put(text);
        page.put_blanks(width.saturating_sub(text.len()))
    }
}
