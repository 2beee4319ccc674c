// When a rule switches to daylight and to standard time in a year.
ghost use Rattle.std.specs.Prelude.{◌≡◌, ◌+◌, ◌%◌, ◌≤◌, true};
ghost use Rattle.days.specs.Years.{leap, year_start};
ghost use Rattle.in_force.specs.Switches.{switches_in, daylight_start, standard_start};
ghost use Rattle.in_force.specs.Steps.{Valid, nth_day, switch_day_of, tick_on_date};

use crate::biases::{daylight_sum, plus_bias, standard_sum};
use days::months::{days_before_month, length_of_month};
use days::years::{days_of_years, leap_year};
use zone::dates::SystemTime;
use zone::rules::{Rule, SoundRule};

// Days less their whole weeks, from the fraction that a product with 2^32 / 7 leaves: shorter than a division.
fn rest_of_weeks(days: u32) -> u32
    requires { days ≤ 14680069 }
    ensures { result ≡ days % 7 }
{
    (days as u64 * 613566757 % 4294967296 * 7 / 4294967296) as u32
}

// In a month of `length` days whose first day has the number `first`: the day with a weekday at an occurrence, where 5 is the last one.
// 14680064 is whole weeks, and more than any day's number.
fn nth_day(first: u32, weekday: u32, occurrence: u32, length: u32) -> u32
    requires { (first ≤ 12000000) × (weekday ≤ 6) × (1 ≤ occurrence) × (occurrence ≤ 5) × (28 ≤ length) × (length ≤ 31) }
    ensures { (result ≡ nth_day ((first + 1) % 7) weekday occurrence length) × (1 ≤ result) × (result ≤ 31) }
{
    let day = 1 + rest_of_weeks(weekday + 14680063 - first) + 7 * (occurrence - 1);
    if day <= length {
        return day;
    }
    day - 7
}

// The day on which a date falls in a year, counted from 1601-01-01. `first` is the number of the year's first day, which both dates of a rule share.
fn switch_day(year: u32, first: u32, is_leap: bool, date: SystemTime) -> u32
    requires { (first ≡ year_start year) × (first ≤ 11406756) × (leap year ≡ is_leap) × Valid date }
    ensures { (result ≡ switch_day_of year date) × (result ≤ 12000000) }
{
    let month = date.month as u32;
    let month_first = first + days_before_month(is_leap, month - 1);
    if date.year != 0 {
        return month_first + (date.day as u32 - 1);
    }
    let length = length_of_month(is_leap, month);
    let day = nth_day(month_first, date.weekday as u32, date.day as u32, length);
    month_first + (day - 1)
}

// The local tick of a date on a day.
fn tick_on(day: u32, date: SystemTime) -> u64
    requires { (day ≤ 12000000) × Valid date }
    ensures { (result ≡ tick_on_date day date) × (result ≤ 10368000864000000000) }
{
    day as u64 * 864000000000
        + date.hour as u64 * 36000000000
        + date.minute as u64 * 600000000
        + date.second as u64 * 10000000
        + date.millisecond as u64 * 10000
}

// The UTC ticks at which daylight and standard time start in a year, document 01's D and S.
#[derive(Clone, Copy)]
pub struct SwitchTicks {
    pub daylight: u64,
    pub standard: u64,
}

// Each date is told in the time that is in force before it.
pub fn switches(sound: SoundRule, year: u32) -> SwitchTicks
    requires { (1601 ≤ year) × (year ≤ 32767) × (switches_in year sound.rule ≡ true) }
    ensures { (result.daylight ≡ daylight_start year sound.rule) × (result.standard ≡ standard_start year sound.rule) }
{
    let rule = sound.rule;
    let standard_bias = standard_sum(rule);
    let daylight_bias = daylight_sum(rule);
    let d = rule.daylight_date;
    let s = rule.standard_date;
    let first = days_of_years(year - 1601);
    let is_leap = leap_year(year);
    let d_day = switch_day(year, first, is_leap, d);
    let s_day = switch_day(year, first, is_leap, s);
    let daylight = plus_bias(tick_on(d_day, d), standard_bias);
    let standard = plus_bias(tick_on(s_day, s), daylight_bias);
    SwitchTicks { daylight, standard }
}

// The dates are set, and of every year or of this one.
pub fn switches_in(rule: Rule, year: u32) -> bool
    ensures { result ≡ switches_in year rule }
{
    let date = rule.standard_date;
    !(date.month == 0) & ((date.year == 0) | (date.year as u32 == year))
}
