// Months of a year, counted from 1.
ghost use Rattle.std.specs.Prelude.{◌≡◌, cond, ℕ, ◌≤◌};
ghost use Rattle.days.specs.Years.{leap};
ghost use Rattle.days.specs.Months.{days_in_month, days_of_months};
ghost use Rattle.days.specs.Steps.{lacking, month_day};

use crate::years::leap_year;

// A month and a day of it, both counted from 1.
#[derive(Clone, Copy)]
pub struct MonthDay {
    pub month: u32,
    pub day: u32,
}

// The length of a month, of a leap year or of a common one.
pub fn month_length(is_leap: bool, month: u32) -> u32
    ensures { (y : ℕ) → leap y ≡ is_leap → result ≡ days_in_month y month }
{
    match month {
        4 | 6 | 9 | 11 => 30,
        2 => { if is_leap { 29 } else { 28 } }
        _ => 31,
    }
}

pub fn days_in_month(year: u32, month: u32) -> u32
    ensures { result ≡ days_in_month year month }
{
    month_length(leap_year(year), month)
}

// The days that February lacks of 30.
fn february_lacks(is_leap: bool) -> u32
    ensures { result ≡ cond is_leap 1 2 }
{
    if is_leap { 1 } else { 2 }
}

// The length of a number that is known to be a month, without a branch on which one it is: the odd months are long up to July, and the even ones after it.
pub fn length_of_month(is_leap: bool, month: u32) -> u32
    requires { (1 ≤ month) × (month ≤ 12) }
    ensures { (y : ℕ) → leap y ≡ is_leap → result ≡ days_in_month y month }
{
    if month == 2 {
        return 30 - february_lacks(is_leap);
    }
    30 + (month + month / 8) % 2
}

// The days of the first m months of a leap year or of a common one: as if February had 30 days, less what it lacks.
pub fn days_before_month(is_leap: bool, m: u32) -> u32
    requires { m ≤ 11 }
    ensures { ((y : ℕ) → leap y ≡ is_leap → result ≡ days_of_months y m) × (result ≤ 335) }
{
    let n = (367 * m + 5) / 12;
    if m < 2 {
        return n;
    }
    n - february_lacks(is_leap)
}

pub fn days_of_months(year: u32, m: u32) -> u32
    requires { m ≤ 11 }
    ensures { (result ≡ days_of_months year m) × (result ≤ 335) }
{
    days_before_month(leap_year(year), m)
}

// The days that February lacks of 30, once it is past.
fn days_lacking(leap: bool, r: u32) -> u32
    ensures { (result ≡ lacking leap r) × (result ≤ 2) }
{
    if leap {
        if r < 60 {
            return 0;
        }
        return 1;
    }
    if r < 59 {
        return 0;
    }
    2
}

// The month and the day of the month of day r of a year, by one division.
pub fn month_day(leap: bool, r: u32) -> MonthDay
    requires { r ≤ 365 }
    ensures { result ≡ month_day leap r }
{
    let n = 12 * (r + days_lacking(leap, r)) + 373;
    MonthDay {
        month: n / 367,
        day: n % 367 / 12 + 1,
    }
}
