// Years by the table.
ghost use Rattle.std.specs.Prelude.{◌≡◌, ◌≤◌, ◌<◌};
ghost use Rattle.days.specs.Years.{year_start, year_day};
ghost use Rattle.table_calendar.specs.Table.{days_before_year};
ghost use Rattle.table_calendar.specs.Steps.{IsPlace};

use crate::table::{DAYS_OF_CYCLE, table_lent};
use days::years::YearDay;

// The place in its cycle of the year of a day. No year has more than 366 days, so it is not before place day / 366. All 400 years together are less than a year shorter than 400 years of 366 days, so it is that place or the next, and the table says which.
fn place_in(starts: &[u32; 400], day: u32) -> u32
    requires { (starts.now ≡ days_before_year) × (day < 146097) }
    ensures { IsPlace day result }
{
    let early = day / 366;
    let late = (early + 1).min(399);
    if starts[late as usize] <= day {
        late
    } else {
        early
    }
}

// The year of a day of the first cycle, and the day's place in it.
fn year_in_cycle(day: u32) -> YearDay
    requires { day < 146097 }
    ensures { result ≡ year_day day }
{
    let starts = table_lent();
    let place = place_in(starts, day);
    YearDay {
        year: 1601 + place,
        day: day - starts[place as usize],
    }
}

// The year of a day and the day's place in it.
pub fn year_by_table(days: u32) -> YearDay
    ensures { result ≡ year_day days }
{
    let x = year_in_cycle(days % DAYS_OF_CYCLE);
    YearDay {
        year: 400 * (days / DAYS_OF_CYCLE) + x.year,
        day: x.day,
    }
}

// The number of the day on which a year starts. 32767 is the last year that fields can hold.
pub fn start_by_table(year: u32) -> u32
    requires { (1601 ≤ year) × (year ≤ 32767) }
    ensures { (result ≡ year_start year) × (result ≤ 11406756) }
{
    let k = year - 1601;
    let starts = table_lent();
    k / 400 * DAYS_OF_CYCLE + starts[(k % 400) as usize]
}
