// Years, by days counted from 1601-01-01.
ghost use Rattle.std.specs.Prelude.{◌≡◌, ◌*◌, ◌≤◌};
ghost use Rattle.days.specs.Years.{leap, days_of_years, year_day};
ghost use Rattle.days.specs.Steps.{blocks_of};

// The days of a block of 400, 100, 4 or 1 years from 1601 on.
const DAYS_OF_400: u32 = 146097;

const DAYS_OF_100: u32 = 36524;

const DAYS_OF_4: u32 = 1461;

const DAYS_OF_1: u32 = 365;

// A year and a day of it; the year's first day is 0.
#[derive(Clone, Copy)]
pub struct YearDay {
    pub year: u32,
    pub day: u32,
}

// A count of days as whole blocks of 400, 100, 4 and 1 years, and the days left.
#[derive(Clone, Copy)]
pub struct YearBlocks {
    pub by_400: u32,
    pub by_100: u32,
    pub by_4: u32,
    pub by_1: u32,
    pub rest: u32,
}

// The tests are joined without a branch, as the definition joins them.
pub fn leap_year(year: u32) -> bool
    ensures { result ≡ leap year }
{
    ((year % 4 == 0) & !(year % 100 == 0)) | (year % 400 == 0)
}

// The days of the k years from 1601 on. 32767 is the last year that fields can hold.
pub fn days_of_years(k: u32) -> u32
    requires { k ≤ 31166 }
    ensures { (result ≡ days_of_years k) × (result ≤ 366 * k) }
{
    365 * k + k / 4 - k / 100 + k / 400
}

// The last day of 400 years is still in its fourth century, and the last day of a leap year in its fourth year.
fn blocks_of(days: u32) -> YearBlocks
    ensures { result ≡ blocks_of days }
{
    let by_400 = days / DAYS_OF_400;
    let in_400 = days % DAYS_OF_400;
    let by_100 = (in_400 / DAYS_OF_100).min(3);
    let in_100 = in_400 - by_100 * DAYS_OF_100;
    let by_4 = in_100 / DAYS_OF_4;
    let in_4 = in_100 % DAYS_OF_4;
    let by_1 = (in_4 / DAYS_OF_1).min(3);
    let rest = in_4 - by_1 * DAYS_OF_1;
    YearBlocks {
        by_400,
        by_100,
        by_4,
        by_1,
        rest,
    }
}

// The year of a day and the day's place in it, by whole blocks of years: no loop.
pub fn year_of_day(days: u32) -> YearDay
    ensures { result ≡ year_day days }
{
    let k = blocks_of(days);
    YearDay {
        year: 1601 + (400 * k.by_400 + 100 * k.by_100 + 4 * k.by_4 + k.by_1),
        day: k.rest,
    }
}
