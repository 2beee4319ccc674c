// A TIME as a plain number: a signed 64-bit count of ticks.
ghost use Rattle.std.specs.Prelude.{◌≡◌, ◌≤◌, pos, neg_ℤ};
ghost use Rattle.calendar.specs.Fields.{last_time};
ghost use Rattle.time_text.specs.Decimal.{decimal_of};
ghost use Rattle.time_text.specs.Number.{least, from_zero, below_zero, number_time};

use crate::decimal::decimal;
use crate::faults::TextFault;

// -n. The least number has no opposite.
fn negative(n: u64) -> i64
    requires { n ≤ least }
    ensures { result ≡ neg_ℤ (pos n) }
{
    0i64.saturating_sub_unsigned(n)
}

fn from_zero(s: &[u8]) -> Result<i64, TextFault>
    ensures { result ≡ from_zero (decimal_of s.now last_time) }
{
    let n = decimal(s, 9223372036854775807).ok_or(TextFault::NotATime)?;
    Ok(n as i64)
}

fn below_zero(s: &[u8]) -> Result<i64, TextFault>
    ensures { result ≡ below_zero (decimal_of s.now least) }
{
    let n = decimal(s, 9223372036854775808).ok_or(TextFault::NotATime)?;
    Ok(negative(n))
}

// The TIME that a number is, with `-` in front of a negative one.
pub fn number_time(s: &[u8]) -> Result<i64, TextFault>
    ensures { result ≡ number_time s.now }
{
    match s.strip_prefix(b"-") {
        Some(digits) => below_zero(digits),
        None => from_zero(s),
    }
}
