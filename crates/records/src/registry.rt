// The registry record, 44 bytes: one active rule of year 0.
ghost use Rattle.std.specs.Prelude.{◌≡◌, length};
ghost use Rattle.refusal.specs.Lent.{fitting, written, lent_after};
ghost use Rattle.refusal.specs.Results.{outcome_of};
ghost use Rattle.zone.specs.Rules.{normal_rule};
ghost use Rattle.records.specs.Layout.{rule_field_bytes};
ghost use Rattle.records.specs.Registry.{read_registry, write_registry};

use crate::layout::{put_rule_fields, rule_at};
use refusal::Refusal;
use zone::rules::{Rule, check_dates, check_rule, is_sound_usual, is_usual, normal_rule};

// Most records hold a usual rule, which fewer tests show to pass.
pub fn read_registry(bytes: &[u8]) -> Result<Rule, Refusal>
    ensures { outcome_of result ≡ read_registry bytes.now }
{
    if bytes.len() != 44 {
        return Err(Refusal::WrongSize);
    }
    let rule = rule_at(bytes, 0, 0, true);
    if is_sound_usual(rule) {
        return Ok(normal_rule(rule));
    }
    check_dates(rule)?;
    Ok(normal_rule(rule))
}

// The bytes of a rule that has passed, where there is room for them.
fn put_registry(rule: Rule, out: &mut [u8]) -> Result<usize, Refusal>
    ensures result_value { outcome_of result ≡ written (fitting (rule_field_bytes (normal_rule rule)) (length out.old)) }
    ensures out_after { out.new ≡ lent_after (fitting (rule_field_bytes (normal_rule rule)) (length out.old)) out.old }
{
    if out.len() < 44 {
        return Err(Refusal::NoRoom);
    }
    put_rule_fields(out, 0, normal_rule(rule));
    Ok(44)
}

// Writes the rule in normal form. Its year and mark are checked or ignored, and not written. A usual rule takes the short way, as in reading.
pub fn write_registry(rule: Rule, out: &mut [u8]) -> Result<usize, Refusal>
    ensures result_value { outcome_of result ≡ written (write_registry rule (length out.old)) }
    ensures out_after { out.new ≡ lent_after (write_registry rule (length out.old)) out.old }
{
    if is_usual(None, rule) {
        return put_registry(rule, out);
    }
    check_rule(None, rule)?;
    put_registry(rule, out)
}
