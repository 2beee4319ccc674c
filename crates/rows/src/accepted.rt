// Rows that are accepted: every call in a row begins with its checks, and goes on in what they leave.
ghost use Rattle.std.specs.Prelude.{◌≡◌, ◌≤◌, ◌<◌, IfOk, IfErr};
ghost use Rattle.refusal.specs.Number.{number_of};
ghost use Rattle.refusal.specs.Outcome.{answered, refused};
ghost use Rattle.zone.specs.Sound.{rule_of};
ghost use Rattle.zone.specs.Ticks.{window_start, window_end};
ghost use Rattle.rows.specs.Row.{check_row};
ghost use Rattle.rows.specs.Search.{rule_in_force};
ghost use Rattle.rows.specs.Stretches.{stretch_at};
ghost use Rattle.rows.specs.Years.{year_in_force};

use crate::checks::check_row;
use crate::search::rule_in_force;
use days::ticks::{year_of, year_start};
use in_force::rule_bias::{YearBias, year_bias};
use in_force::stretches::{Stretch, stretch_in_year};
use refusal::Refusal;
use zone::rules::{Rule, SoundRule};

// A row that has passed its checks.
#[derive(Clone, Copy)]
pub struct Row<'a> {
    pub rules: &'a [Rule],
    ghost accepted: { check_row rules.now ≡ answered tt },
}

impl<'a> Row<'a> {
    // A row's checks, from 6 to 12.
    pub fn accept(rules: &'a [Rule]) -> Result<Row<'a>, Refusal>
        ensures row { IfOk result (λ row. row.rules.now ≡ rules.now) }
        ensures refusal { IfErr result (λ why. check_row rules.now ≡ refused (number_of why)) }
    {
        check_row(rules)?;
        Ok(Row { rules })
    }

    pub fn rule_in_force(self, year: u32) -> Option<SoundRule>
        ensures { rule_of result ≡ rule_in_force self.entry.rules.now year }
    {
        let rule = rule_in_force(self.rules, year)?;
        Some(SoundRule { rule })
    }

    // When daylight and standard time start in a year, and the bias in each. Every walk over a run rests on this call alone.
    // Without a rule nobody asks: the bias is 0.
    pub fn year_in_force(self, year: u32) -> YearBias
        requires { (1601 ≤ year) × (year ≤ 32767) }
        ensures { result ≡ year_in_force self.entry.rules.now year }
    {
        match self.rule_in_force(year) {
            Some(rule) => year_bias(rule, year),
            None => YearBias {
                daylight_start: 0,
                standard_start: 0,
                standard: 0,
                daylight: 0,
            },
        }
    }

    // What is in force at a tick of the window, and the tick up to which it stays.
    // Without a rule nobody asks: the stretch is the rest of the year.
    pub fn stretch_at(self, tick: u64) -> Stretch
        requires { (window_start ≤ tick) × (tick < window_end) }
        ensures { result ≡ stretch_at self.entry.rules.now tick }
    {
        let year = year_of(tick);
        match self.rule_in_force(year) {
            Some(rule) => stretch_in_year(rule, year, tick),
            None => Stretch {
                bias: 0,
                daylight: false,
                end: year_start(year + 1),
            },
        }
    }
}
