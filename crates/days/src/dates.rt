// Dates, the numbers of their days, and weekdays.
ghost use Rattle.std.specs.Prelude.{◌≡◌, ◌≤◌, ◌<◌};
ghost use Rattle.days.specs.Years.{days_in_year};
ghost use Rattle.days.specs.Dates.{day_number, date_in_year, date_of, weekday};

use crate::months::{days_of_months, month_day};
use crate::years::{YearDay, days_of_years, leap_year, year_of_day};

// A day of the calendar. Months and days of a month count from 1.
#[derive(Clone, Copy)]
pub struct Date {
    pub year: u32,
    pub month: u32,
    pub day: u32,
}

// The number of a day, counted from 1601-01-01.
pub fn day_number(year: u32, month: u32, day: u32) -> u32
    requires { (1601 ≤ year) × (year ≤ 32767) × (1 ≤ month) × (month ≤ 12) × (1 ≤ day) × (day ≤ 31) }
    ensures { (result ≡ day_number year month day) × (result ≤ 12000000) }
{
    days_of_years(year - 1601) + days_of_months(year, month - 1) + (day - 1)
}

// The date of a day of a year.
pub fn date_in_year(x: YearDay) -> Date
    requires { x.day < days_in_year x.year }
    ensures { result ≡ date_in_year x }
{
    let p = month_day(leap_year(x.year), x.day);
    Date {
        year: x.year,
        month: p.month,
        day: p.day,
    }
}

// The date of a day.
pub fn date_of(days: u32) -> Date
    ensures { result ≡ date_of days }
{
    date_in_year(year_of_day(days))
}

// Sunday is 0, and day 0 a Monday.
pub fn weekday_of(days: u32) -> u32
    ensures { result ≡ weekday days }
{
    (days % 7 + 1) % 7
}
