// Fields of a TIME: a weekday, and a date with its time of day.
use crate::numbers::{put_short, put_three_digits, put_two_digits};
use crate::text::put;
use calendar::fields::TimeFields;

// In a column of 9 places.
pub fn put_weekday(weekday: i16) {
    match weekday {
        0 => put(b"Sunday   "),
        1 => put(b"Monday   "),
        2 => put(b"Tuesday  "),
        3 => put(b"Wednesday"),
        4 => put(b"Thursday "),
        5 => put(b"Friday   "),
        6 => put(b"Saturday "),
        _ => put(b"         "),
    }
}

// In a column of 5 places, at its right.
fn put_year(year: i16) {
    match year {
        0..=9999 => put(b" "),
        _ => {}
    }
    put_short(year);
}

pub fn put_date_and_time(fields: TimeFields) {
    put_year(fields.year);
    put(b"-");
    put_two_digits(fields.month);
    put(b"-");
    put_two_digits(fields.day);
    put(b" ");
    put_two_digits(fields.hour);
    put(b":");
    put_two_digits(fields.minute);
    put(b":");
    put_two_digits(fields.second);
    put(b".");
    put_three_digits(fields.milliseconds);
}
