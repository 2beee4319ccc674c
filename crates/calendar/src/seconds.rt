// Seconds since the start of 1970 and of 1980.
ghost use Rattle.std.specs.Prelude.{◌≡◌, ◌≤◌};
ghost use Rattle.refusal.specs.Results.{outcome_of};
ghost use Rattle.calendar.specs.Seconds.{start1970, start1980, whole_seconds, seconds_since, seconds_to_time};

use crate::signed::not_negative;
use refusal::Refusal;

const START_1970: u64 = 116444736000000000;

const START_1980: u64 = 119600064000000000;

// Whole seconds from a start to a tick, rounded down. A tick before the start is refused: it is not in second 0.
fn whole_seconds(start: u64, tick: u64) -> Result<u32, Refusal>
    ensures { outcome_of result ≡ whole_seconds start tick }
{
    if tick < start {
        return Err(Refusal::OutOfRange);
    }
    let seconds = (tick - start) / 10000000;
    if 4294967295 < seconds {
        return Err(Refusal::OutOfRange);
    }
    Ok(seconds as u32)
}

fn seconds_since(start: u64, time: i64) -> Result<u32, Refusal>
    ensures { outcome_of result ≡ seconds_since start time }
{
    whole_seconds(start, not_negative(time)?)
}

fn seconds_to_time(start: u64, seconds: u32) -> i64
    requires { start ≤ start1980 }
    ensures { result ≡ seconds_to_time start seconds }
{
    (start + seconds as u64 * 10000000) as i64
}

pub fn time_to_seconds_since_1970(time: i64) -> Result<u32, Refusal>
    ensures { outcome_of result ≡ seconds_since start1970 time }
{
    seconds_since(START_1970, time)
}

pub fn time_to_seconds_since_1980(time: i64) -> Result<u32, Refusal>
    ensures { outcome_of result ≡ seconds_since start1980 time }
{
    seconds_since(START_1980, time)
}

pub fn seconds_since_1970_to_time(seconds: u32) -> i64
    ensures { result ≡ seconds_to_time start1970 seconds }
{
    seconds_to_time(START_1970, seconds)
}

pub fn seconds_since_1980_to_time(seconds: u32) -> i64
    ensures { result ≡ seconds_to_time start1980 seconds }
{
    seconds_to_time(START_1980, seconds)
}
