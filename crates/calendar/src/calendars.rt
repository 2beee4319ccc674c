// Calendars: ways from days to dates and back. Whatever way one takes, its answers are these.
ghost use Rattle.std.specs.Prelude.{◌≡◌, ◌≤◌};
ghost use Rattle.days.specs.Dates.{date_of, day_number};

use days::dates::{Date, date_of, day_number};

pub trait Calendar {
    // The date of a day.
    fn date_of(days: u32) -> Date
        ensures { result ≡ date_of days };

    // The number of a day, counted from 1601-01-01.
    fn day_number(year: u32, month: u32, day: u32) -> u32
        requires { (1601 ≤ year) × (year ≤ 32767) × (1 ≤ month) × (month ≤ 12) × (1 ≤ day) × (day ≤ 31) }
        ensures { (result ≡ day_number year month day) × (result ≤ 12000000) };
}

// The year of a day by whole blocks of 400, 100, 4 and 1 years.
pub struct ByBlocks;

impl Calendar for ByBlocks {
    fn date_of(days: u32) -> Date {
        date_of(days)
    }

    fn day_number(year: u32, month: u32, day: u32) -> u32 {
        day_number(year, month, day)
    }
}
