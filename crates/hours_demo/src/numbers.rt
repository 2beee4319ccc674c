// Numbers in decimal, in columns.
use crate::text::{STANDARD_OUTPUT, put};

fn put_unsigned(n: u64) {
    io::print_decimal(STANDARD_OUTPUT, n);
}

// In a column of 5 places, at its right.
pub fn put_at_right(n: u64) {
    match n {
        0..=9 => put(b"    "),
        10..=99 => put(b"   "),
        100..=999 => put(b"  "),
        1000..=9999 => put(b" "),
        _ => {}
    }
    put_unsigned(n);
}

// At least two digits.
pub fn put_two_digits(n: u64) {
    match n {
        0..=9 => put(b"0"),
        _ => {}
    }
    put_unsigned(n);
}
