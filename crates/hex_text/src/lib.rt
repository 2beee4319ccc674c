// Records as raw bytes or as hex text, as registry exports have it: from lent text to lent bytes.
#![tactic(auto)]

ghost use Rattle.std.specs.Prelude.{◌≡◌, false, List, [], ◌∷◌, ℕ, ◌≤◌, length, take, Some};
ghost use Rattle.calendar.specs.Ranges.{within};
ghost use Rattle.hex_text.specs.Hex.{is_gap, digit_of, read_hex, fitting, bytes_in, record_of, still_read};

use little_endian::fields::put_bytes;

// How far hex text is read: how many bytes, a digit that waits for its second one (16: none, as the definition counts it, which an Option would have to be turned into), and whether all was hex and had room.
#[derive(Clone, Copy)]
pub struct Pending {
    pub len: usize,
    pub high: u8,
    pub sound: bool,
}

fn in_range(low: u8, high: u8, byte: u8) -> bool
    ensures { result ≡ within low high byte }
{
    (low <= byte) & (byte <= high)
}

// Tab, line end, carriage return, blank, comma, backslash.
fn is_gap(byte: u8) -> bool
    ensures { result ≡ is_gap byte }
{
    in_range(9, 10, byte) | (byte == 13) | (byte == 32) | (byte == 44) | (byte == 92)
}

// A digit's value, 16 for what is passed over and 17 for any other byte.
fn digit_of(byte: u8) -> u8
    ensures { (result ≡ digit_of byte) × (result ≤ 17) }
{
    if in_range(48, 57, byte) {
        return byte - 48;
    }
    if in_range(65, 70, byte) {
        return byte - 55;
    }
    if in_range(97, 102, byte) {
        return byte - 87;
    }
    if is_gap(byte) {
        return 16;
    }
    17
}

fn unsound(pending: Pending) -> Pending
    ensures { (result.sound ≡ false) × (result.len ≡ pending.len) × (result.high ≡ pending.high) }
{
    Pending {
        len: pending.len,
        high: pending.high,
        sound: false,
    }
}

fn put_digit(out: &mut [u8], pending: Pending, digit: u8) -> Pending
    requires { (pending.len ≤ length out.old) × (pending.high ≤ 16) × (digit ≤ 17) }
    ensures { (result.len ≤ length out.new) × (result.high ≤ 16) × (length out.new ≡ length out.old) × ((b : ℕ) (rest : List ℕ) → digit_of b ≡ digit → still_read out.old pending (b ∷ rest) ≡ still_read out.new result rest) }
{
    if !pending.sound {
        return pending;
    }
    if digit == 17 {
        return unsound(pending);
    }
    if digit == 16 {
        return pending;
    }
    if pending.high == 16 {
        return Pending {
            len: pending.len,
            high: digit,
            sound: true,
        };
    }
    let len = pending.len;
    if len == out.len() {
        return unsound(pending);
    }
    out[len] = pending.high * 16 + digit;
    Pending {
        len: len + 1,
        high: 16,
        sound: true,
    }
}

// Reads hex text into lent bytes.
fn unhex(text: &[u8], out: &mut [u8]) -> Pending
    ensures { (still_read out.new result [] ≡ fitting (length out.old) (read_hex 16 text.now)) × (result.len ≤ length out.new) × (length out.new ≡ length out.old) }
{
    let mut pending = Pending {
        len: 0,
        high: 16,
        sound: true,
    };
    for byte in text {
        pending = put_digit(out, pending, digit_of(*byte));
    }
    pending
}

// What was read, at the end of hex text: how many bytes, if all was hex and no digit waits.
fn ended(pending: Pending) -> Option<usize>
    ensures { ((out : List ℕ) → pending.len ≤ length out → bytes_in result out ≡ still_read out pending []) × ((len : ℕ) → result ≡ Some len → len ≤ pending.len) }
{
    if pending.sound & (pending.high == 16) {
        Some(pending.len)
    } else {
        None
    }
}

// The text itself.
fn raw(text: &[u8], out: &mut [u8]) -> Option<usize>
    ensures { (bytes_in result out.new ≡ fitting (length out.old) (Some text.now)) × ((len : ℕ) → result ≡ Some len → len ≤ length out.new) × (length out.new ≡ length out.old) }
{
    if out.len() < text.len() {
        return None;
    }
    put_bytes(out, 0, text);
    Some(text.len())
}

// The bytes of hex text, and of any other text the text itself, at the start of lent bytes: how many. None where there is no room for them.
pub fn record_of(text: &[u8], out: &mut [u8]) -> Option<usize>
    ensures { (bytes_in result out.new ≡ record_of (length out.old) text.now) × ((len : ℕ) → result ≡ Some len → (len ≤ length out.new) × (len ≡ length (take len out.new))) × (length out.new ≡ length out.old) }
{
    match ended(unhex(text, out)) {
        Some(len) if len > 0 => Some(len),
        _ => raw(text, out),
    }
}
