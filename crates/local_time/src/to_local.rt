// UTC to local time.
ghost use Rattle.std.specs.Prelude.{◌≡◌, ◌≤◌, ◌<◌};
ghost use Rattle.refusal.specs.Results.{outcome_of};
ghost use Rattle.zone.specs.Ticks.{window_start, window_end, local_tick};
ghost use Rattle.in_force.specs.Biases.{less_bias};
ghost use Rattle.in_force.specs.RuleBias.{bias_of};
ghost use Rattle.local_time.specs.LocalTime.{in_window, utc_to_local};

use crate::doors::{local_tick, utc_count};
use days::ticks::year_of;
use in_force::biases::less_bias;
use in_force::rule_bias::{bias_at, year_bias};
use refusal::Refusal;
use rows::accepted::Row;
use zone::rules::{Rule, SoundRule};
use zone::ticks::{LocalTick, UtcTick};

fn in_window(tick: u64) -> bool
    ensures { result ≡ in_window tick }
{
    (315360000000000 <= tick) & (tick < 9223149888000000000)
}

// UTC less the bias that the rule puts in force.
fn local_by(rule: SoundRule, tick: u64) -> LocalTick
    requires { (window_start ≤ tick) × (tick < window_end) }
    ensures { result ≡ local_tick (less_bias tick (bias_of rule.rule tick)) }
{
    let year = year_of(tick);
    let k = year_bias(rule, year);
    local_tick(less_bias(tick, bias_at(k, tick)))
}

pub fn utc_to_local(row: &[Rule], utc: UtcTick) -> Result<LocalTick, Refusal>
    ensures { outcome_of result ≡ utc_to_local row.now utc }
{
    let accepted = Row::accept(row)?;
    let tick = utc_count(utc)?;
    if !in_window(tick) {
        return Err(Refusal::OutOfRange);
    }
    match accepted.rule_in_force(year_of(tick)) {
        Some(rule) => Ok(local_by(rule, tick)),
        None => Err(Refusal::BeforeFirstRule),
    }
}
