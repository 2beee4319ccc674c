// TIME to fields and back.
ghost use Rattle.std.specs.Prelude.{◌≡◌, ℕ, ◌+◌, ◌*◌, ◌<◌, ◌≤◌};
ghost use Rattle.refusal.specs.Results.{outcome_of};
ghost use Rattle.days.specs.Dates.{date_of, day_number};
ghost use Rattle.days.specs.Ticks.{day, millisecond};
ghost use Rattle.calendar.specs.Ranges.{within};
ghost use Rattle.calendar.specs.Fields.{fields_of, time_to_fields, fields_to_time};
ghost use Rattle.calendar.specs.Steps.{day_time, parts_of, is_formed, is_second, milliseconds_of, as_time, time_of};

use crate::calendars::{ByBlocks, Calendar};
use crate::ranges::{is_day, is_hour, is_millisecond, is_minute, is_month};
use crate::revisions::{REVISION_1_2, check_revision};
use crate::signed::{not_negative, part, short};
use days::dates::{Date, weekday_of};
use days::months::days_in_month;
use refusal::Refusal;

// Source document 004's TIME_FIELDS. Months and days of a month count from 1, and Sunday is weekday 0.
#[repr(C)]
#[derive(Clone, Copy)]
pub struct TimeFields {
    pub year: i16,
    pub month: i16,
    pub day: i16,
    pub hour: i16,
    pub minute: i16,
    pub second: i16,
    pub milliseconds: i16,
    pub weekday: i16,
}

// A day's number, and a millisecond of that day.
#[derive(Clone, Copy)]
pub struct DayTime {
    pub days: u32,
    pub ms: u32,
}

// The fields that name a TIME, unsigned.
#[derive(Clone, Copy)]
pub struct Parts {
    pub year: u32,
    pub month: u32,
    pub day: u32,
    pub hour: u32,
    pub minute: u32,
    pub second: u32,
    pub milliseconds: u32,
}

// The day of a tick and the millisecond of that day. Both divisions are of the tick, so that neither waits for the other.
fn day_time(tick: u64) -> DayTime
    ensures { result ≡ day_time tick }
{
    let days = tick / 864000000000;
    DayTime {
        days: days as u32,
        ms: (tick / 10000 - 86400000 * days) as u32,
    }
}

// The fields of the ticks of a millisecond, by the date of their day, however that was found. The last TIME is on day 10675199.
// Hours, minutes and seconds are each divided out of the milliseconds, so that what is left behind the larger unit takes no further division.
fn fields_on(date: Date, at: DayTime) -> TimeFields
    requires { (at.days ≤ 10675199) × (at.ms < 86400000) × (date ≡ date_of at.days) }
    ensures { (t : ℕ) → day_time t ≡ at → result ≡ fields_of t }
{
    let ms = at.ms;
    let hours = ms / 3600000;
    let minutes = ms / 60000;
    let seconds = ms / 1000;
    TimeFields {
        year: short(date.year),
        month: short(date.month),
        day: short(date.day),
        hour: short(hours),
        minute: short(minutes - 60 * hours),
        second: short(seconds - 60 * minutes),
        milliseconds: short(ms - 1000 * seconds),
        weekday: short(weekday_of(at.days)),
    }
}

// The fields of a tick that a TIME can hold.
fn fields_of<C: Calendar>(tick: u64) -> TimeFields
    requires { tick < 9223372036854775808 }
    ensures { result ≡ fields_of tick }
{
    let at = day_time(tick);
    fields_on(C::date_of(at.days), at)
}

// The fields of a TIME by a calendar. Parts under a millisecond are dropped.
pub fn time_to_fields_by<C: Calendar>(revision: u32, time: i64) -> Result<TimeFields, Refusal>
    ensures { outcome_of result ≡ time_to_fields revision time }
{
    check_revision(revision)?;
    let tick = not_negative(time)?;
    Ok(fields_of::<C>(tick))
}

pub fn time_to_fields(revision: u32, time: i64) -> Result<TimeFields, Refusal>
    ensures { outcome_of result ≡ time_to_fields revision time }
{
    time_to_fields_by::<ByBlocks>(revision, time)
}

fn parts_of(fields: TimeFields) -> Parts
    ensures { result ≡ parts_of fields }
{
    let year = part(fields.year);
    let month = part(fields.month);
    let day = part(fields.day);
    let hour = part(fields.hour);
    let minute = part(fields.minute);
    let second = part(fields.second);
    let milliseconds = part(fields.milliseconds);
    Parts {
        year,
        month,
        day,
        hour,
        minute,
        second,
        milliseconds,
    }
}

// 32767 is the greatest year that a field holds; well-formed fields may be later than the last TIME.
fn is_year(year: u32) -> bool
    ensures { result ≡ within 1601 32767 year }
{
    matches!(year, 1601..=32767)
}

// Second 60 stands only by revision 1.2, at 23:59 on the last day of a month.
fn is_second(revision: u32, p: Parts) -> bool
    ensures { result ≡ is_second revision p }
{
    let second = p.second;
    match second {
        0..=59 => true,
        60 => {
            (revision == REVISION_1_2)
                & (p.hour == 23)
                & (p.minute == 59)
                & (p.day == days_in_month(p.year, p.month))
        }
        _ => false,
    }
}

fn well_formed(revision: u32, p: Parts) -> bool
    ensures { result ≡ is_formed revision p }
{
    is_year(p.year)
        & is_month(p.month)
        & is_day(p.year, p.month, p.day)
        & is_hour(p.hour)
        & is_minute(p.minute)
        & is_millisecond(p.milliseconds)
        & is_second(revision, p)
}

fn tick_of(days: u32, hour: u32, minute: u32, second: u32, ms: u32) -> u64
    requires { (days ≤ 12000000) × (hour ≤ 23) × (minute ≤ 59) × (second ≤ 60) × (ms ≤ 999) }
    ensures { result ≡ days * day + milliseconds_of hour minute second ms * millisecond }
{
    days as u64 * 864000000000 + (((hour * 60 + minute) * 60 + second) * 1000 + ms) as u64 * 10000
}

fn as_time(tick: u64) -> Result<i64, Refusal>
    ensures { outcome_of result ≡ as_time tick }
{
    if tick <= 9223372036854775807 {
        return Ok(tick as i64);
    }
    Err(Refusal::OutOfRange)
}

// The TIME of well-formed fields, or refusal 15, by the number of their day, however that was found.
fn time_on(days: u32, p: Parts) -> Result<i64, Refusal>
    requires { (days ≡ day_number p.year p.month p.day) × (days ≤ 12000000) × (p.hour ≤ 23) × (p.minute ≤ 59) × (p.second ≤ 60) × (p.milliseconds ≤ 999) }
    ensures { outcome_of result ≡ time_of p }
{
    as_time(tick_of(days, p.hour, p.minute, p.second, p.milliseconds))
}

// The TIME of fields by a calendar. The weekday is ignored.
pub fn fields_to_time_by<C: Calendar>(revision: u32, fields: TimeFields) -> Result<i64, Refusal>
    ensures { outcome_of result ≡ fields_to_time revision fields }
{
    check_revision(revision)?;
    let p = parts_of(fields);
    if !well_formed(revision, p) {
        return Err(Refusal::IllFormedFields);
    }
    let days = C::day_number(p.year, p.month, p.day);
    time_on(days, p)
}

pub fn fields_to_time(revision: u32, fields: TimeFields) -> Result<i64, Refusal>
    ensures { outcome_of result ≡ fields_to_time revision fields }
{
    fields_to_time_by::<ByBlocks>(revision, fields)
}
