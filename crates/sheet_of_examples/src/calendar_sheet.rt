// The examples of TIME and its fields.
use crate::lines::{
    show_fields, show_fields_by_table, show_kind, show_kind_by, show_seconds_since_1970,
    show_seconds_since_1980, show_there_and_back, show_time, show_time_by, show_time_by_table,
    show_time_from_1970, show_time_from_1980,
};
use crate::text::heading;
use calendar::fields::TimeFields;
use calendar::revisions::REVISION_1_0;

fn at(
    year: i16,
    month: i16,
    day: i16,
    hour: i16,
    minute: i16,
    second: i16,
    milliseconds: i16,
) -> TimeFields {
    TimeFields {
        year,
        month,
        day,
        hour,
        minute,
        second,
        milliseconds,
        weekday: 0,
    }
}

fn midnight(year: i16, month: i16, day: i16) -> TimeFields {
    at(year, month, day, 0, 0, 0, 0)
}

// 23:59:60 of a day.
fn second_60(year: i16, month: i16, day: i16) -> TimeFields {
    at(year, month, day, 23, 59, 60, 0)
}

fn time_to_fields() {
    heading(b"TIME to fields");
    show_fields(0);
    show_fields(9999);
    show_fields(10000);
    show_fields(122648657102450000);
    show_fields(9223372036854775807);
    show_fields(-1);
    show_fields(-9223372036854775808);
}

fn fields_to_time() {
    heading(b"Fields to TIME");
    show_time(midnight(1600, 12, 31));
    show_time(midnight(1601, 1, 1));
    show_time(midnight(1900, 2, 29));
    show_time(at(1989, 8, 29, 11, 8, 30, 245));
    show_time(midnight(2000, 2, 29));
    show_time(midnight(2023, 4, 31));
    show_time(midnight(2023, 13, 1));
    show_time(at(2023, 4, 30, 24, 0, 0, 0));
    show_time(at(2023, 4, 30, 12, 60, 0, 0));
    show_time(at(2023, 4, 30, 12, 0, 60, 0));
    show_time(at(2023, 4, 30, 12, 0, -1, 0));
}

fn there_and_back() {
    heading(b"TIME to fields and back to TIME: parts under a millisecond are dropped");
    show_there_and_back(9999);
    show_there_and_back(10000);
    show_there_and_back(122648657102450000);
    show_there_and_back(9223372036854775807);
}

// TIME 0 is an interval, and has fields all the same.
fn absolute_or_interval() {
    heading(b"Absolute or interval");
    show_kind(-1);
    show_kind(0);
    show_kind(1);
    show_kind(9223372036854775807);
}

fn seconds_since_1970() {
    heading(b"TIME to seconds since 1970, rounded down");
    show_seconds_since_1970(-1);
    show_seconds_since_1970(116444735990000000);
    show_seconds_since_1970(116444735999999999);
    show_seconds_since_1970(116444736000000000);
    show_seconds_since_1970(116444736009999999);
    show_seconds_since_1970(116444736010000000);
    show_seconds_since_1970(159394408959999999);
    show_seconds_since_1970(159394408960000000);
    heading(b"Seconds since 1970 to TIME");
    show_time_from_1970(0);
    show_time_from_1970(1);
    show_time_from_1970(4294967295);
}

fn seconds_since_1980() {
    heading(b"TIME to seconds since 1980, rounded down");
    show_seconds_since_1980(-1);
    show_seconds_since_1980(119600063990000000);
    show_seconds_since_1980(119600063999999999);
    show_seconds_since_1980(119600064000000000);
    show_seconds_since_1980(119600064009999999);
    show_seconds_since_1980(119600064010000000);
    show_seconds_since_1980(162549736959999999);
    show_seconds_since_1980(162549736960000000);
    heading(b"Seconds since 1980 to TIME");
    show_time_from_1980(0);
    show_time_from_1980(1);
    show_time_from_1980(4294967295);
}

fn leap_seconds() {
    heading(b"Second 60, at 23:59 on the last day of a month: the next day's second 0");
    show_time(second_60(2016, 12, 31));
    show_time(midnight(2017, 1, 1));
    show_time(at(2016, 12, 31, 23, 59, 60, 999));
    show_time(at(2017, 1, 1, 0, 0, 0, 999));
    show_time(second_60(2016, 12, 30));
    show_time(at(2016, 12, 31, 23, 58, 60, 0));
    show_time(second_60(2015, 2, 28));
    show_time(second_60(2016, 2, 28));
    show_time(second_60(2016, 2, 29));
    show_time(second_60(30828, 8, 31));
    show_time(second_60(30828, 9, 30));
}

fn last_time() {
    heading(b"The last TIME, and later");
    show_time(at(30828, 9, 14, 2, 48, 5, 477));
    show_time(at(30828, 9, 14, 2, 48, 5, 478));
    show_time(midnight(30829, 1, 1));
    show_time(midnight(30829, 2, 29));
    show_time(midnight(32000, 2, 29));
    show_time(second_60(32767, 12, 31));
}

// Document 02, R-6. A cycle ends with the year 2000, 2400 and so on, and 32767 is the last year that a field holds.
fn by_table() {
    heading(b"TIME to fields, by the table of 400 years");
    show_fields_by_table(0);
    show_fields_by_table(122648657102450000);
    show_fields_by_table(126227807999999999);
    show_fields_by_table(126227808000000000);
    show_fields_by_table(252455615999999999);
    show_fields_by_table(252455616000000000);
    show_fields_by_table(9223372036854775807);
    show_fields_by_table(-1);
    heading(b"Fields to TIME, by the table of 400 years");
    show_time_by_table(midnight(1900, 2, 29));
    show_time_by_table(midnight(2000, 2, 29));
    show_time_by_table(second_60(2000, 12, 31));
    show_time_by_table(midnight(2001, 1, 1));
    show_time_by_table(at(30828, 9, 14, 2, 48, 5, 477));
    show_time_by_table(at(30828, 9, 14, 2, 48, 5, 478));
    show_time_by_table(second_60(32767, 12, 31));
}

// Document 02, R-9. Where revision 1.2 gives second 60 an answer or 15, 1.0 gives 14.
fn by_revision_1_0() {
    heading(b"By revision 1.0: absolute or interval");
    show_kind_by(REVISION_1_0, -1);
    show_kind_by(REVISION_1_0, 0);
    show_kind_by(REVISION_1_0, 1);
    heading(b"By revision 1.0: second 60");
    show_time_by(REVISION_1_0, at(2016, 12, 31, 23, 59, 59, 999));
    show_time_by(REVISION_1_0, second_60(2016, 12, 31));
    show_time_by(REVISION_1_0, second_60(2016, 12, 30));
    show_time_by(REVISION_1_0, second_60(30828, 9, 30));
    show_time_by(REVISION_1_0, midnight(30829, 1, 1));
}

// Refused before every other check: by 1.2 the first is answered, the second refused with 14 and the third with 15.
fn by_other_revisions() {
    heading(b"By revision number 11: refused before every other check");
    show_kind_by(11, 0);
    show_time_by(11, midnight(1900, 2, 29));
    show_time_by(11, midnight(30829, 1, 1));
}

pub fn show() {
    time_to_fields();
    fields_to_time();
    there_and_back();
    absolute_or_interval();
    seconds_since_1970();
    seconds_since_1980();
    leap_seconds();
    last_time();
    by_table();
    by_revision_1_0();
    by_other_revisions();
}
