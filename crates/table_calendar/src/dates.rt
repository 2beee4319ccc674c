// The calendar by the table: its years are found in it, and its months are those of every calendar.
ghost use Rattle.std.specs.Prelude.{◌≡◌, ◌≤◌};
ghost use Rattle.days.specs.Dates.{day_number, date_of};

use crate::years::{start_by_table, year_by_table};
use calendar::calendars::Calendar;
use days::dates::{Date, date_in_year};
use days::months::days_of_months;

pub struct ByTable;

impl Calendar for ByTable {
    fn date_of(days: u32) -> Date {
        date_in_year(year_by_table(days))
    }

    fn day_number(year: u32, month: u32, day: u32) -> u32 {
        start_by_table(year) + days_of_months(year, month - 1) + (day - 1)
    }
}
