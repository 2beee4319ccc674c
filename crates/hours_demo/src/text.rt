// Text on standard output.

// The number under which it is open.
pub const STANDARD_OUTPUT: i32 = 1;

pub fn put(text: &[u8]) {
    io::write_all(STANDARD_OUTPUT, text);
}
