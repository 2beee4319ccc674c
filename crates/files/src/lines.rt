// Texts by their lines, and texts of hex digits.
ghost use Rattle.std.specs.Prelude.{◌≡◌, ◌≤◌, ℕ, eqb, not, length};
ghost use Rattle.std.specs.List.{prefix_len, take_while};

// How many bytes stand before the first byte of a kind.
fn length_up_to(text: &[u8], byte: u8) -> usize
    ensures len { result ≡ prefix_len (λ (other : ℕ). not (eqb other byte)) text.now }
    ensures prefix_len { result ≤ length text.now }
{
    text.iter().take_while(|other| **other != byte).count()
}

// A text up to the first byte of a kind: all of it where there is none.
pub fn up_to(text: &[u8], byte: u8) -> &[u8]
    ensures text { result.now ≡ take_while (λ (other : ℕ). not (eqb other byte)) text.now }
    ensures len { length result.now ≤ length text.now }
{
    let n = length_up_to(text, byte);
    &text[..n]
}

pub fn first_line(text: &[u8]) -> &[u8] {
    up_to(text, b'\n')
}

// What stands behind the first line: nothing where it has no end.
pub fn behind_line(text: &[u8]) -> &[u8] {
    match text.iter().position(|byte| *byte == b'\n') {
        Some(end) => &text[end + 1..],
        None => &[],
    }
}

fn is_hex_digit(byte: u8) -> bool {
    matches!(byte, b'0'..=b'9' | b'a'..=b'f')
}

// Whether a text is so many hex digits.
pub fn is_hex(text: &[u8], digits: usize) -> bool {
    text.len() == digits && text.iter().all(|byte| is_hex_digit(*byte))
}

// Only of a token a name may be made: what else a file holds could lead to another folder.
pub fn is_token(text: &[u8]) -> bool {
    is_hex(text, 16)
}
