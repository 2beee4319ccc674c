// The UTC ticks that show a local tick, under the rules of one or two years.
ghost use Rattle.std.specs.Prelude.{◌≡◌, ℕ, ◌+◌, ◌-◌, ◌<◌, ◌≤◌, true, [], ◌∷◌, ◌++◌, if◌then◌else◌, Some};
ghost use Rattle.days.specs.Ticks.{day, year_of, year_tick};
ghost use Rattle.days.specs.Counting.{among};
ghost use Rattle.zone.specs.Biases.{in_bias_range};
ghost use Rattle.zone.specs.Sound.{rule_of};
ghost use Rattle.in_force.specs.Shown.{shows_under, ticks_of_year, ticks_of, year_ticks, shown_ticks};
ghost use Rattle.in_force.specs.Steps.{shows_at, shown_of};

use crate::biases::plus_bias;
use crate::rule_bias::{YearBias, daylight_between, year_bias};
use days::ticks::{year_of, year_start};
use zone::rules::SoundRule;

// The ticks of one UTC year that show a local tick, rising.
#[derive(Clone, Copy)]
pub enum YearTicks {
    None,
    One(u64),
    Two(u64, u64),
}

// At most four values: the ticks of one or two UTC years that show a local tick, rising.
#[derive(Clone, Copy)]
pub enum UpToFour<T> {
    None,
    One(T),
    Two(T, T),
    Three(T, T, T),
    Four(T, T, T, T),
}

fn either(a: bool, u: u64, v: u64) -> u64
    ensures { result ≡ (if a then u else v) }
{
    if a { u } else { v }
}

// u and v, each where its mark is set. Most often one of them is, and which one a processor cannot guess.
fn marked(a: bool, u: u64, b: bool, v: u64) -> YearTicks
    ensures { ticks_of_year result ≡ (if a then u ∷ [] else []) ++ (if b then v ∷ [] else []) }
{
    if a != b {
        return YearTicks::One(either(a, u, v));
    }
    if a {
        return YearTicks::Two(u, v);
    }
    YearTicks::None
}

// d where it is inside and in daylight time, and s where it is inside and not: the sooner first.
fn shown_of(k: YearBias, d: u64, d_inside: bool, s: u64, s_inside: bool) -> YearTicks
    ensures { ticks_of_year result ≡ shown_of k d d_inside s s_inside }
{
    let d_shows = daylight_between(k.daylight_start, k.standard_start, d);
    let s_shows = !daylight_between(k.daylight_start, k.standard_start, s);
    if d < s {
        return marked(d_inside & d_shows, d, s_inside & s_shows, s);
    }
    if s < d {
        return marked(s_inside & s_shows, s, d_inside & d_shows, d);
    }
    marked(d_inside, d, false, d)
}

// The ticks from start to before end that show a local tick.
fn shown_at(k: YearBias, start: u64, end: u64, local: u64) -> YearTicks
    requires { (in_bias_range k.standard ≡ true) × (in_bias_range k.daylight ≡ true) × (864000000000 ≤ start) × (local ≤ 9223372036854775807) }
    ensures { ticks_of_year result ≡ among (shows_at k local) start end }
{
    let d = plus_bias(local, k.daylight);
    let s = plus_bias(local, k.standard);
    let d_inside = (start <= d) & (d < end);
    let s_inside = (start <= s) & (s < end);
    shown_of(k, d, d_inside, s, s_inside)
}

// The same from any start up to a day before the local tick to any end later than a day after it: a bias is at most a day.
fn shown_within(k: YearBias, local: u64) -> YearTicks
    requires { (in_bias_range k.standard ≡ true) × (in_bias_range k.daylight ≡ true) × (local ≤ 9223372036854775807) }
    ensures { (a b : ℕ) → 864000000000 ≤ a → a ≤ local - day → local + day < b → ticks_of_year result ≡ among (shows_at k local) a b }
{
    let d = plus_bias(local, k.daylight);
    let s = plus_bias(local, k.standard);
    shown_of(k, d, true, s, true)
}

// The ticks that show a local tick under a rule, where a day before it and a day after it lie in one UTC year. Only years of the window have any.
pub fn ticks_within(rule: SoundRule, year: u32, local: u64) -> UpToFour<u64>
    requires { (local ≤ 9223372036854775807) × (year_of (local - day) ≡ year) × (year_of (local + day) ≡ year) }
    ensures { ticks_of result ≡ year_ticks (Some rule.rule) year local }
{
    match year {
        1602..=30827 => joined(shown_within(year_bias(rule, year), local), YearTicks::None),
        _ => UpToFour::None,
    }
}

// The ticks of a UTC year that show a local tick under a rule.
fn candidates(rule: SoundRule, year: u32, local: u64) -> YearTicks
    requires { (1602 ≤ year) × (year ≤ 30827) × (local ≤ 9223372036854775807) }
    ensures { ticks_of_year result ≡ among (shows_under (Some rule.rule) local) (year_tick year) (year_tick (year + 1)) }
{
    let k = year_bias(rule, year);
    shown_at(k, year_start(year), year_start(year + 1), local)
}

// Only years of the window have any.
fn year_ticks(rule: Option<SoundRule>, year: u32, local: u64) -> YearTicks
    requires { local ≤ 9223372036854775807 }
    ensures { ticks_of_year result ≡ year_ticks (rule_of rule) year local }
{
    let Some(rule) = rule else {
        return YearTicks::None;
    };
    match year {
        1602..=30827 => candidates(rule, year, local),
        _ => YearTicks::None,
    }
}

// The ticks of a year and of the next one.
fn joined(a: YearTicks, b: YearTicks) -> UpToFour<u64>
    ensures { ticks_of result ≡ ticks_of_year a ++ ticks_of_year b }
{
    match a {
        YearTicks::None => match b {
            YearTicks::None => UpToFour::None,
            YearTicks::One(u) => UpToFour::One(u),
            YearTicks::Two(u, v) => UpToFour::Two(u, v),
        },
        YearTicks::One(u) => match b {
            YearTicks::None => UpToFour::One(u),
            YearTicks::One(v) => UpToFour::Two(u, v),
            YearTicks::Two(v, w) => UpToFour::Three(u, v, w),
        },
        YearTicks::Two(u, v) => match b {
            YearTicks::None => UpToFour::Two(u, v),
            YearTicks::One(w) => UpToFour::Three(u, v, w),
            YearTicks::Two(w, x) => UpToFour::Four(u, v, w, x),
        },
    }
}

// A day before a tick, but not before tick 0.
pub fn day_before(tick: u64) -> u64
    ensures { result ≡ tick - 864000000000 }
{
    tick.saturating_sub(864000000000)
}

// All ticks of the window that show a local tick, under the rules in force in the UTC years of a day before it and of a day after it:
// a bias is at most a day, so they lie in these years.
pub fn shown_ticks(first: Option<SoundRule>, second: Option<SoundRule>, local: u64) -> UpToFour<u64>
    requires { local ≤ 9223372036854775807 }
    ensures { ticks_of result ≡ shown_ticks (rule_of first) (rule_of second) local }
{
    let y = year_of(day_before(local));
    let z = year_of(local + 864000000000);
    let a = year_ticks(first, y, local);
    if y == z {
        return joined(a, YearTicks::None);
    }
    joined(a, year_ticks(second, z, local))
}
