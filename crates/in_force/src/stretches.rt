// The stretch of ticks over which a rule's bias stays.
ghost use Rattle.std.specs.Prelude.{◌≡◌, ◌≤◌};
ghost use Rattle.days.specs.Ticks.{year_of};
ghost use Rattle.in_force.specs.Stretches.{sooner_after, next_change, stretch_in};

use crate::rule_bias::{YearBias, bias_at, daylight_between, year_bias};
use days::ticks::year_start;
use zone::rules::SoundRule;

// The bias at a tick, whether it is daylight time, and the tick up to which both stay.
#[derive(Clone, Copy)]
pub struct Stretch {
    pub bias: i32,
    pub daylight: bool,
    pub end: u64,
}

// The sooner of a tick and an end, where the tick counts only after u.
fn sooner_after(u: u64, tick: u64, end: u64) -> u64
    ensures { result ≡ sooner_after u tick end }
{
    if (u < tick) & (tick < end) {
        return tick;
    }
    end
}

// The next change of a year's bias after a tick, or an end that comes sooner.
pub fn next_change(k: YearBias, u: u64, end: u64) -> u64
    ensures { result ≡ next_change k u end }
{
    let standard = sooner_after(u, k.standard_start, end);
    sooner_after(u, k.daylight_start, standard)
}

// The stretch from a tick of a UTC year on. It ends with the year: the next year's first tick may change the bias.
pub fn stretch_in_year(rule: SoundRule, year: u32, u: u64) -> Stretch
    requires { (1601 ≤ year) × (year ≤ 30827) × (year_of u ≡ year) }
    ensures { result ≡ stretch_in rule.rule year u }
{
    let k = year_bias(rule, year);
    let bias = bias_at(k, u);
    let daylight = daylight_between(k.daylight_start, k.standard_start, u);
    let end = next_change(k, u, year_start(year + 1));
    Stretch {
        bias,
        daylight,
        end,
    }
}
