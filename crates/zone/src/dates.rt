// Switch dates: when a rule goes over to standard or to daylight time, told in local time.
ghost use Rattle.std.specs.Prelude.{◌≡◌};
ghost use Rattle.calendar.specs.Ranges.{within};
ghost use Rattle.zone.specs.Dates.{valid_day, valid_seconds, valid_date, yearly_date, date_ok, unset, normal_date};

use calendar::ranges::{is_day, is_hour, is_millisecond, is_minute, is_month, is_second};

// SYSTEMTIME as the records have it. In a switch date month 0 means not set, and year 0 every year.
#[repr(C)]
#[derive(Clone, Copy)]
pub struct SystemTime {
    pub year: u16,
    pub month: u16,
    pub weekday: u16,
    pub day: u16,
    pub hour: u16,
    pub minute: u16,
    pub second: u16,
    pub millisecond: u16,
}

fn is_weekday(weekday: u16) -> bool
    ensures { result ≡ within 0 6 weekday }
{
    matches!(weekday, 0..=6)
}

// Which one of its weekday a day is in the month: 5 means the last one.
fn is_occurrence(day: u16) -> bool
    ensures { result ≡ within 1 5 day }
{
    matches!(day, 1..=5)
}

// A weekday and its occurrence every year, or one day of one year.
fn is_valid_day(date: SystemTime) -> bool
    ensures { result ≡ valid_day date }
{
    let year = date.year;
    match year {
        0 => is_weekday(date.weekday) & is_occurrence(date.day),
        1601..=30827 => is_day(date.year as u32, date.month as u32, date.day as u32),
        _ => false,
    }
}

// Most dates tell hour and minute alone, which is asked first: four like tests of neighbouring fields would be compiled into one load of them, which waits for fields just stored.
fn is_valid_seconds(second: u16, millisecond: u16) -> bool
    ensures { result ≡ valid_seconds second millisecond }
{
    if (second == 0) & (millisecond == 0) {
        return true;
    }
    is_second(second as u32) & is_millisecond(millisecond as u32)
}

fn is_valid(date: SystemTime) -> bool
    ensures { result ≡ valid_date date }
{
    let day = is_valid_day(date);
    is_month(date.month as u32)
        & day
        & (is_hour(date.hour as u32)
            & is_minute(date.minute as u32)
            & is_valid_seconds(date.second, date.millisecond))
}

// A set date of every year that keeps its rule.
pub fn is_yearly(date: SystemTime) -> bool
    ensures { result ≡ yearly_date date }
{
    (date.year == 0)
        & (is_month(date.month as u32)
            & (is_weekday(date.weekday) & is_occurrence(date.day))
            & (is_hour(date.hour as u32)
                & is_minute(date.minute as u32)
                & (is_second(date.second as u32) & is_millisecond(date.millisecond as u32))))
}

// A date that is not set is never looked at.
pub fn date_ok(date: SystemTime) -> bool
    ensures { result ≡ date_ok date }
{
    if date.month == 0 {
        return true;
    }
    is_valid(date)
}

// A date that is not set, made normal: all zero.
pub fn no_date() -> SystemTime
    ensures { result ≡ unset }
{
    SystemTime {
        year: 0,
        month: 0,
        weekday: 0,
        day: 0,
        hour: 0,
        minute: 0,
        second: 0,
        millisecond: 0,
    }
}

// A date that is not set is all zero, and one with a year has weekday 0.
pub fn normal_date(date: SystemTime) -> SystemTime
    ensures { result ≡ normal_date date }
{
    if date.month == 0 {
        return no_date();
    }
    if date.year == 0 {
        return date;
    }
    let mut normal = date;
    normal.weekday = 0;
    normal
}
