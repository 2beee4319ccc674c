// The checks of a row from 6 to 12, rule by rule. A rule's own check is zone's.
ghost use Rattle.std.specs.Prelude.{◌≡◌};
ghost use Rattle.refusal.specs.Results.{outcome_of};
ghost use Rattle.calendar.specs.Ranges.{within};
ghost use Rattle.zone.specs.Rules.{check_rule};
ghost use Rattle.rows.specs.Row.{check_row};

use refusal::Refusal;
use zone::rules::{Rule, check_rule, is_usual};

// A rule's check, where a usual rule takes the short way.
fn check_in_row(before: Option<u16>, rule: Rule) -> Result<(), Refusal>
    ensures { outcome_of result ≡ check_rule before rule }
{
    if is_usual(before, rule) {
        return Ok(());
    }
    check_rule(before, rule)
}

fn is_count(count: usize) -> bool
    ensures { result ≡ within 1 1024 count }
{
    matches!(count, 1..=1024)
}

// The number of rules, then the first refusal of a rule, then the marks.
pub fn check_row(row: &[Rule]) -> Result<(), Refusal>
    ensures { outcome_of result ≡ check_row row.now }
{
    if !is_count(row.len()) {
        return Err(Refusal::RuleCount);
    }
    let mut before = None;
    let mut active: u32 = 0;
    for rule in row {
        check_in_row(before, *rule)?;
        before = Some(rule.year);
        active += u32::from(rule.active);
    }
    if active != 1 {
        return Err(Refusal::ActiveRules);
    }
    Ok(())
}
