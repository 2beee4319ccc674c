// A date and a time of day, as 2023-03-26T00:00:00 or 2023-03-26T00:00:00.25.
ghost use Rattle.std.specs.Prelude.{◌≡◌, ◌+◌, ◌-◌, ◌*◌, ◌^◌, ◌≤◌, ◌<◌, length, drop};
ghost use Rattle.refusal.specs.Results.{outcome_of};
ghost use Rattle.time_text.specs.Decimal.{digit_of};
ghost use Rattle.time_text.specs.Clock as Clock;
ghost use Rattle.time_text.specs.Clock.{number_at, clock_fields, fraction_ticks, clock_ends, clock_outcome, clock_time};
ghost use Rattle.time_text.specs.Steps.{clock_by};

use crate::decimal::is_digit;
use crate::faults::TextFault;
use calendar::fields::{TimeFields, fields_to_time};
use calendar::revisions::check_revision;
use calendar::signed::short;
use refusal::Refusal;

// ---- the form

fn fits(template: u8, byte: u8) -> bool
    ensures { result ≡ Clock.fits template byte }
{
    if template == b'd' {
        return is_digit(byte);
    }
    template == byte
}

// Whether a text is formed like the start of a template.
fn matches(template: &[u8], s: &[u8]) -> bool
    ensures { result ≡ Clock.matches template.now s.now }
{
    s.len() <= template.len() && template.iter().zip(s).all(|(t, byte)| fits(*t, *byte))
}

fn clock_ends(w: usize, n: usize) -> bool
    requires { w ≤ 5 }
    ensures { result ≡ clock_ends w n }
{
    (n == w + 15) | ((w + 17 <= n) & (n <= w + 23))
}

// ---- the numbers in it

// What a byte adds to a number. It is no more than 207, whatever the byte.
fn digit(byte: u8) -> u32
    ensures { (result ≡ digit_of byte) × (result ≤ 207) }
{
    u32::from(byte.saturating_sub(b'0'))
}

// The number of some digits at a place. Its bound holds whatever the bytes are: 207 is 23 times 9.
fn number_at(s: &[u8], at: usize, digits: usize) -> u32
    requires { (digits ≤ 7) × (at + digits ≤ length s.now) }
    ensures { (result ≡ number_at s.now at digits) × (result + 23 ≤ 23 * 10 ^ digits) }
{
    let mut value: u32 = 0;
    let part = &s[at..at + digits];
    for byte in part {
        value = value * 10 + digit(*byte);
    }
    value
}

// A fraction of so many digits in ticks.
fn in_ticks(fraction: u32, digits: usize) -> u32
    requires { (digits ≤ 7) × (fraction + 23 ≤ 23 * 10 ^ digits) }
    ensures { (result ≡ fraction * 10 ^ (7 - digits)) × (result ≤ 230000000) }
{
    fraction * 10u32.pow(7 - digits as u32)
}

// The ticks of the fraction whose digits start at a place. There are none where the text ends before it.
fn fraction_at(s: &[u8], at: usize) -> u32
    requires { (at ≤ 21) × (length s.now ≤ at + 7) }
    ensures { (result ≡ fraction_ticks (drop at s.now)) × (result ≤ 230000000) }
{
    let end = s.len();
    if end <= at {
        return 0;
    }
    let digits = end - at;
    in_ticks(number_at(s, at, digits), digits)
}

fn fields_at(s: &[u8], w: usize) -> TimeFields
    requires { (w ≤ 5) × (w + 15 ≤ length s.now) × (number_at s.now 0 w < 32768) }
    ensures { result ≡ clock_fields w s.now }
{
    TimeFields {
        year: short(number_at(s, 0, w)),
        month: short(number_at(s, w + 1, 2)),
        day: short(number_at(s, w + 4, 2)),
        hour: short(number_at(s, w + 7, 2)),
        minute: short(number_at(s, w + 10, 2)),
        second: short(number_at(s, w + 13, 2)),
        milliseconds: 0,
        weekday: 0,
    }
}

// ---- the time

fn later(time: i64, ticks: u32) -> Result<i64, Refusal>
    ensures { outcome_of result ≡ Clock.later time ticks }
{
    if time < 0 {
        return Err(Refusal::OutOfRange);
    }
    time.checked_add(i64::from(ticks))
        .ok_or(Refusal::OutOfRange)
}

fn time_of(revision: u32, s: &[u8], w: usize) -> Result<i64, Refusal>
    requires { (w ≤ 5) × (w + 15 ≤ length s.now) × (length s.now ≤ w + 23) }
    ensures { outcome_of result ≡ clock_outcome revision w s.now }
{
    check_revision(revision)?;
    if 32767 < number_at(s, 0, w) {
        return Err(Refusal::OutOfRange);
    }
    let time = fields_to_time(revision, fields_at(s, w))?;
    later(time, fraction_at(s, w + 16))
}

fn clock_by(revision: u32, template: &[u8], w: usize, s: &[u8]) -> Result<i64, TextFault>
    requires { w ≤ 5 }
    ensures { result ≡ clock_by revision template.now w s.now }
{
    if !clock_ends(w, s.len()) {
        return Err(TextFault::NotATime);
    }
    if !matches(template, s) {
        return Err(TextFault::NotATime);
    }
    Ok(time_of(revision, s, w)?)
}

// The TIME of a date and a time of day, by a revision. The year has four digits, or five.
pub fn clock_time(revision: u32, s: &[u8]) -> Result<i64, TextFault>
    ensures { result ≡ clock_time revision s.now }
{
    if s.len() <= 4 {
        return Err(TextFault::NotATime);
    }
    if is_digit(s[4]) {
        return clock_by(revision, b"ddddd-dd-ddTdd:dd:dd.ddddddd", 5, s);
    }
    clock_by(revision, b"dddd-dd-ddTdd:dd:dd.ddddddd", 4, s)
}
