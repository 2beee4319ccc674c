// Signed ticks are left at the door: all else is done in unsigned numbers. By document 01 the two kinds of tick are types apart, each with doors of its own, so that none lets the other kind in.
ghost use Rattle.std.specs.Prelude.{◌≡◌, ◌≤◌, IfOk};
ghost use Rattle.refusal.specs.Results.{outcome_of};
ghost use Rattle.calendar.specs.Fields.{last_time, not_negative};
ghost use Rattle.zone.specs.Ticks.{utc_tick, local_tick};

use calendar::signed::not_negative;
use refusal::Refusal;
use zone::ticks::{LocalTick, UtcTick};

pub fn utc_count(utc: UtcTick) -> Result<u64, Refusal>
    ensures outcome { outcome_of result ≡ not_negative utc.0 }
    ensures bound { IfOk result (λ count. count ≤ last_time) }
{
    not_negative(utc.0)
}

pub fn local_count(local: LocalTick) -> Result<u64, Refusal>
    ensures outcome { outcome_of result ≡ not_negative local.0 }
    ensures bound { IfOk result (λ count. count ≤ last_time) }
{
    not_negative(local.0)
}

pub fn utc_tick(count: u64) -> UtcTick
    requires { count ≤ last_time }
    ensures { result ≡ utc_tick count }
{
    UtcTick(count as i64)
}

pub fn local_tick(count: u64) -> LocalTick
    requires { count ≤ last_time }
    ensures { result ≡ local_tick count }
{
    LocalTick(count as i64)
}
