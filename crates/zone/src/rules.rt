// Rules of a time zone, their checks in the paper's order, and their normal form.
ghost use Rattle.std.specs.Prelude.{◌≡◌};
ghost use Rattle.refusal.specs.Number.{number_of};
ghost use Rattle.refusal.specs.Outcome.{answered};
ghost use Rattle.refusal.specs.Results.{outcome_of};
ghost use Rattle.zone.specs.Rules.{dates_match, dates_sound, fault_of, biases_ok, year_fits, check_dates, check_rule, sound_usual, usual_rule, no_rule, normal_rule};

use crate::biases::{in_bias_range, sum_in_range};
use crate::dates::{SystemTime, date_ok, is_yearly, no_date, normal_date};
use refusal::Refusal;

// A rule, in force from its year on. Biases are minutes.
#[repr(C)]
#[derive(Clone, Copy)]
pub struct Rule {
    pub year: u16,
    pub active: bool,
    pub bias: i32,
    pub standard_bias: i32,
    pub daylight_bias: i32,
    pub standard_date: SystemTime,
    pub daylight_date: SystemTime,
}

// A rule whose dates and biases have passed their checks.
#[derive(Clone, Copy)]
pub struct SoundRule {
    pub rule: Rule,
    ghost sound: { check_dates rule ≡ answered tt },
}

// Both dates are set, with the same year, or neither is.
fn dates_match(standard: SystemTime, daylight: SystemTime) -> bool
    ensures { result ≡ dates_match standard daylight }
{
    if standard.month == 0 {
        return daylight.month == 0;
    }
    !(daylight.month == 0) & (standard.year == daylight.year)
}

// Each date by itself, and both together.
fn dates_sound(standard: SystemTime, daylight: SystemTime) -> bool
    ensures { result ≡ dates_sound standard daylight }
{
    if !date_ok(standard) {
        return false;
    }
    if !date_ok(daylight) {
        return false;
    }
    dates_match(standard, daylight)
}

// Dates not set: Bias alone counts. Set: the two sums count.
fn biases_ok(rule: Rule) -> bool
    ensures { result ≡ biases_ok rule }
{
    let standard = rule.standard_date;
    if standard.month == 0 {
        return in_bias_range(rule.bias as i64);
    }
    sum_in_range(rule.bias, rule.standard_bias) & sum_in_range(rule.bias, rule.daylight_bias)
}

// The first test that fails where not all hold: the biases', if the dates are sound.
fn fault(standard: SystemTime, daylight: SystemTime) -> Refusal
    ensures { number_of result ≡ fault_of standard daylight }
{
    if !date_ok(standard) {
        return Refusal::BadDate;
    }
    if !date_ok(daylight) {
        return Refusal::BadDate;
    }
    if !dates_match(standard, daylight) {
        return Refusal::DatesDoNotMatch;
    }
    Refusal::BiasOutOfRange
}

// A rule's dates and biases. Why they are refused is asked only where they are.
pub fn check_dates(rule: Rule) -> Result<(), Refusal>
    ensures { outcome_of result ≡ check_dates rule }
{
    let standard = rule.standard_date;
    let daylight = rule.daylight_date;
    let sound = dates_sound(standard, daylight);
    if sound & biases_ok(rule) {
        return Ok(());
    }
    Err(fault(standard, daylight))
}

fn year_fits(before: Option<u16>, year: u16) -> bool
    ensures { result ≡ year_fits before year }
{
    match before {
        Some(last) => (year <= 30827) & (last < year),
        None => year <= 30827,
    }
}

// A rule's year, after that of the rule before, then its dates and biases.
pub fn check_rule(before: Option<u16>, rule: Rule) -> Result<(), Refusal>
    ensures { outcome_of result ≡ check_rule before rule }
{
    if !year_fits(before, rule.year) {
        return Err(Refusal::RuleYear);
    }
    let standard = rule.standard_date;
    let daylight = rule.daylight_date;
    let sound = dates_sound(standard, daylight);
    if sound & biases_ok(rule) {
        return Ok(());
    }
    Err(fault(standard, daylight))
}

// A usual rule, as most zones have it, that passes: both dates are of every year, or neither is set, and the biases are in range.
pub fn is_sound_usual(rule: Rule) -> bool
    ensures { result ≡ sound_usual rule }
{
    let standard = rule.standard_date;
    let daylight = rule.daylight_date;
    if standard.month == 0 {
        return (daylight.month == 0) & biases_ok(rule);
    }
    (is_yearly(standard) & is_yearly(daylight)) & biases_ok(rule)
}

// The same for a rule of a row, with its year. Every other rule is checked in full.
pub fn is_usual(before: Option<u16>, rule: Rule) -> bool
    ensures { result ≡ usual_rule before rule }
{
    if !year_fits(before, rule.year) {
        return false;
    }
    is_sound_usual(rule)
}

// All zero: what stands where there is no rule.
pub fn no_rule() -> Rule
    ensures { result ≡ no_rule }
{
    Rule {
        year: 0,
        active: false,
        bias: 0,
        standard_bias: 0,
        daylight_bias: 0,
        standard_date: no_date(),
        daylight_date: no_date(),
    }
}

pub fn normal_rule(rule: Rule) -> Rule
    ensures { result ≡ normal_rule rule }
{
    let standard = normal_date(rule.standard_date);
    let daylight = normal_date(rule.daylight_date);
    let mut normal = rule;
    normal.standard_date = standard;
    normal.daylight_date = daylight;
    normal
}
