// Numbers in decimal: as long as they are, in columns, and with zeros in front.
use crate::text::{STANDARD_OUTPUT, put};

pub fn put_unsigned(n: u64) {
    io::print_decimal(STANDARD_OUTPUT, n);
}

pub fn put_signed(n: i64) {
    if n < 0 {
        put(b"-");
    }
    put_unsigned(n.unsigned_abs());
}

// In a column of 20 places, at its left.
pub fn put_unsigned_column(n: u64) {
    let mut places = [b' '; 20];
    io::decimal(n, &mut places);
    put_places(&places);
}

// Lent as an array and not as a slice, the places need no proof of their number.
fn put_places(places: &[u8; 20]) {
    put(places);
}

// In a column of 21 places, the first for the sign.
pub fn put_signed_column(n: i64) {
    if n < 0 {
        put(b"-");
    } else {
        put(b" ");
    }
    put_unsigned_column(n.unsigned_abs());
}

pub fn put_short(n: i16) {
    put_signed(i64::from(n));
}

// At least two digits.
pub fn put_two_digits(n: i16) {
    match n {
        0..=9 => put(b"0"),
        _ => {}
    }
    put_short(n);
}

// At least three digits.
pub fn put_three_digits(n: i16) {
    match n {
        0..=99 => put(b"0"),
        _ => {}
    }
    put_two_digits(n);
}
