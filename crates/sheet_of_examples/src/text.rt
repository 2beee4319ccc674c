// Text on standard output.

// The number under which it is open.
pub const STANDARD_OUTPUT: i32 = 1;

pub fn put(text: &[u8]) {
    io::write_all(STANDARD_OUTPUT, text);
}

// A section's title, after an empty line.
pub fn heading(title: &[u8]) {
    put(b"\n");
    put(title);
    put(b"\n");
}
