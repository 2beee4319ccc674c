// The answers of the calls, or why they are refused.
use crate::fields::{put_date_and_time, put_weekday};
use crate::numbers::{put_signed, put_unsigned};
use crate::text::put;
use calendar::fields::TimeFields;
use refusal::Refusal;

// The words of document 01's table for the refusals that the calls of TIME give, and of document 02 for 22.
fn put_words(why: Refusal) {
    match why {
        Refusal::IllFormedFields => put(b": fields ill formed"),
        Refusal::OutOfRange => put(b": TIME negative or result not expressible"),
        Refusal::UnknownRevision => put(b": revision number neither 10 nor 12"),
        _ => {}
    }
}

fn put_refusal(why: Refusal) {
    put(b"refused, ");
    put_unsigned(u64::from(u32::from(why)));
    put_words(why);
}

fn put_kind(absolute: bool) {
    if absolute {
        put(b"absolute");
    } else {
        put(b"interval");
    }
}

pub fn put_absolute_answer(answer: Result<bool, Refusal>) {
    match answer {
        Ok(absolute) => put_kind(absolute),
        Err(why) => put_refusal(why),
    }
}

pub fn put_fields_answer(answer: Result<TimeFields, Refusal>) {
    match answer {
        Ok(fields) => {
            put_weekday(fields.weekday);
            put(b" ");
            put_date_and_time(fields);
        }
        Err(why) => put_refusal(why),
    }
}

pub fn put_time_answer(answer: Result<i64, Refusal>) {
    match answer {
        Ok(time) => put_signed(time),
        Err(why) => put_refusal(why),
    }
}

pub fn put_seconds_answer(answer: Result<u32, Refusal>) {
    match answer {
        Ok(seconds) => put_unsigned(seconds as u64),
        Err(why) => put_refusal(why),
    }
}
