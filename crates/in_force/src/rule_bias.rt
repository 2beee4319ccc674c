// Which bias a rule puts in force.
ghost use Rattle.std.specs.Prelude.{◌≡◌, ◌≤◌};
ghost use Rattle.in_force.specs.RuleBias.{daylight_between};
ghost use Rattle.in_force.specs.Steps.{year_bias, bias_at};

use crate::biases::{daylight_sum, standard_sum};
use crate::switches::{switches, switches_in};
use std::num::wrapping_sub_u64;
use zone::rules::SoundRule;

// Daylight time, from the UTC ticks at which daylight and standard time start. In the south the year begins in it.
// Counted on from daylight's start, around the end of 64 bits where need be, u comes before standard's start.
pub fn daylight_between(daylight: u64, standard: u64, u: u64) -> bool
    ensures { result ≡ daylight_between daylight standard u }
{
    wrapping_sub_u64(u, daylight) < wrapping_sub_u64(standard, daylight)
}

// What a rule says of one UTC year: when daylight and standard time start, and the bias in each.
// Without switches in that year both start at 0, which is never daylight time.
// That both biases are in range is asked where it counts, and is no part of the type: definitions make values of it, and would need a proof in each.
#[derive(Clone, Copy)]
pub struct YearBias {
    pub daylight_start: u64,
    pub standard_start: u64,
    pub standard: i32,
    pub daylight: i32,
}

pub fn year_bias(sound: SoundRule, year: u32) -> YearBias
    requires { (1601 ≤ year) × (year ≤ 32767) }
    ensures { result ≡ year_bias year sound.rule }
{
    let rule = sound.rule;
    let date = rule.standard_date;
    if date.month == 0 {
        let bias = rule.bias;
        return YearBias {
            daylight_start: 0,
            standard_start: 0,
            standard: bias,
            daylight: bias,
        };
    }
    let standard = standard_sum(rule);
    if !switches_in(rule, year) {
        return YearBias {
            daylight_start: 0,
            standard_start: 0,
            standard,
            daylight: standard,
        };
    }
    let starts = switches(sound, year);
    let daylight = daylight_sum(rule);
    YearBias {
        daylight_start: starts.daylight,
        standard_start: starts.standard,
        standard,
        daylight,
    }
}

// The bias at a tick of that year.
pub fn bias_at(k: YearBias, u: u64) -> i32
    ensures { result ≡ bias_at k u }
{
    if daylight_between(k.daylight_start, k.standard_start, u) {
        return k.daylight;
    }
    k.standard
}
