// Ranges of the fields of dates and times of day, each by name: document 01 asks that matches decide them, and a pattern takes no parameter.
ghost use Rattle.std.specs.Prelude.{◌≡◌};
ghost use Rattle.days.specs.Months.{days_in_month};
ghost use Rattle.calendar.specs.Ranges.{within};

use days::months::days_in_month;

pub fn is_month(month: u32) -> bool
    ensures { result ≡ within 1 12 month }
{
    matches!(month, 1..=12)
}

// A day of a month of a year. Every month has 28 days.
pub fn is_day(year: u32, month: u32, day: u32) -> bool
    ensures { result ≡ within 1 (days_in_month year month) day }
{
    match day {
        1..=28 => true,
        29..=31 => day <= days_in_month(year, month),
        _ => false,
    }
}

pub fn is_hour(hour: u32) -> bool
    ensures { result ≡ within 0 23 hour }
{
    matches!(hour, 0..=23)
}

pub fn is_minute(minute: u32) -> bool
    ensures { result ≡ within 0 59 minute }
{
    matches!(minute, 0..=59)
}

pub fn is_second(second: u32) -> bool
    ensures { result ≡ within 0 59 second }
{
    matches!(second, 0..=59)
}

pub fn is_millisecond(millisecond: u32) -> bool
    ensures { result ≡ within 0 999 millisecond }
{
    matches!(millisecond, 0..=999)
}
