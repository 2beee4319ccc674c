// TIME and its fields.
ghost use Rattle.std.specs.Prelude.{◌≡◌};
ghost use Rattle.calendar.specs.Absolute.{is_absolute};
ghost use Rattle.calendar.specs.Fields.{time_to_fields, fields_to_time};
ghost use Rattle.calendar.specs.Seconds.{start1970, start1980, seconds_since, seconds_to_time};
ghost use Rattle.answers_for_c.specs.Time.{absolute_for_c, fields_for_c, time_for_c, seconds_for_c};

use answers_for_c::time::{AbsoluteForC, FieldsForC, SecondsForC, TimeForC};
use calendar::absolute::is_absolute;
use calendar::fields::{TimeFields, fields_to_time, time_to_fields};
use calendar::seconds::{
    seconds_since_1970_to_time, seconds_since_1980_to_time, time_to_seconds_since_1970,
    time_to_seconds_since_1980,
};
use table_calendar::fields::{fields_to_time_by_table, time_to_fields_by_table};

#[unsafe(no_mangle)]
pub extern "C" fn dohlenwerk_is_absolute(revision: u32, time: i64) -> AbsoluteForC
    ensures { result ≡ absolute_for_c (is_absolute revision time) }
{
    AbsoluteForC::from(is_absolute(revision, time))
}

#[unsafe(no_mangle)]
pub extern "C" fn dohlenwerk_time_to_fields(revision: u32, time: i64) -> FieldsForC
    ensures { result ≡ fields_for_c (time_to_fields revision time) }
{
    FieldsForC::from(time_to_fields(revision, time))
}

#[unsafe(no_mangle)]
pub extern "C" fn dohlenwerk_fields_to_time(revision: u32, fields: TimeFields) -> TimeForC
    ensures { result ≡ time_for_c (fields_to_time revision fields) }
{
    TimeForC::from(fields_to_time(revision, fields))
}

#[unsafe(no_mangle)]
pub extern "C" fn dohlenwerk_time_to_fields_by_table(revision: u32, time: i64) -> FieldsForC
    ensures { result ≡ fields_for_c (time_to_fields revision time) }
{
    FieldsForC::from(time_to_fields_by_table(revision, time))
}

#[unsafe(no_mangle)]
pub extern "C" fn dohlenwerk_fields_to_time_by_table(revision: u32, fields: TimeFields) -> TimeForC
    ensures { result ≡ time_for_c (fields_to_time revision fields) }
{
    TimeForC::from(fields_to_time_by_table(revision, fields))
}

#[unsafe(no_mangle)]
pub extern "C" fn dohlenwerk_time_to_seconds_since_1970(time: i64) -> SecondsForC
    ensures { result ≡ seconds_for_c (seconds_since start1970 time) }
{
    SecondsForC::from(time_to_seconds_since_1970(time))
}

#[unsafe(no_mangle)]
pub extern "C" fn dohlenwerk_time_to_seconds_since_1980(time: i64) -> SecondsForC
    ensures { result ≡ seconds_for_c (seconds_since start1980 time) }
{
    SecondsForC::from(time_to_seconds_since_1980(time))
}

#[unsafe(no_mangle)]
pub extern "C" fn dohlenwerk_seconds_since_1970_to_time(seconds: u32) -> i64
    ensures { result ≡ seconds_to_time start1970 seconds }
{
    seconds_since_1970_to_time(seconds)
}

#[unsafe(no_mangle)]
pub extern "C" fn dohlenwerk_seconds_since_1980_to_time(seconds: u32) -> i64
    ensures { result ≡ seconds_to_time start1980 seconds }
{
    seconds_since_1980_to_time(seconds)
}
