// Signed numbers are left at the door: all else is done in unsigned ones.
ghost use Rattle.std.specs.Prelude.{◌≡◌, ◌<◌, ◌≤◌, pos, IfOk};
ghost use Rattle.refusal.specs.Results.{outcome_of};
ghost use Rattle.calendar.specs.Fields.{last_time, not_negative};
ghost use Rattle.calendar.specs.Steps.{part_of};

use refusal::Refusal;

// A tick as an unsigned number, or refusal 15 for a negative one.
pub fn not_negative(time: i64) -> Result<u64, Refusal>
    ensures outcome { outcome_of result ≡ not_negative time }
    ensures bound { IfOk result (λ tick. tick ≤ last_time) }
{
    if time < 0 {
        return Err(Refusal::OutOfRange);
    }
    Ok(time as u64)
}

// A field as an unsigned number: 65535, which is past every field's range, for a negative one.
pub fn part(x: i16) -> u32
    ensures { result ≡ part_of x }
{
    if x < 0 {
        return 65535;
    }
    x as u32
}

pub fn short(x: u32) -> i16
    requires { x < 32768 }
    ensures { result ≡ pos x }
{
    x as i16
}
