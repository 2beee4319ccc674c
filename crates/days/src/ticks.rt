// Years and ticks of 100 ns, counted from 1601-01-01 00:00.
ghost use Rattle.std.specs.Prelude.{◌≡◌, ◌≤◌};
ghost use Rattle.days.specs.Ticks.{year_of, day_in_year, year_tick};

use crate::years::{days_of_years, year_of_day};

// The year of a tick.
pub fn year_of(tick: u64) -> u32
    ensures { result ≡ year_of tick }
{
    year_of_day((tick / 864000000000) as u32).year
}

// The day of its year on which a tick lies; the first one is 0.
pub fn day_in_year(tick: u64) -> u32
    ensures { result ≡ day_in_year tick }
{
    year_of_day((tick / 864000000000) as u32).day
}

// The first tick of a year.
pub fn year_start(year: u32) -> u64
    requires { (1601 ≤ year) × (year ≤ 30828) }
    ensures { (result ≡ year_tick year) × (result ≤ 9223149888000000000) }
{
    days_of_years(year - 1601) as u64 * 864000000000
}
