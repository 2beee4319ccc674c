// A definition written from a name and a row: first all checks, then the header, then rule after rule.
ghost use Rattle.std.specs.Prelude.{◌≡◌, ◌+◌, ◌*◌, ◌≤◌, length};
ghost use Rattle.refusal.specs.Lent.{written, lent_after};
ghost use Rattle.refusal.specs.Results.{outcome_of};
ghost use Rattle.little_endian.specs.Stored.{stored};
ghost use Rattle.definition.specs.Definition.{rules_bytes, check_name, write_definition};

use definition::header::is_name_length;
use definition::writing::{put_header, put_rule};
use refusal::Refusal;
use rows::checks::check_row;
use utf16::has_lone_surrogate;
use zone::rules::Rule;

// In the paper's order: 2, 5, 20. A name that is too long is not looked through.
fn check_name(name: &[u8]) -> Result<(), Refusal>
    ensures { outcome_of result ≡ check_name name.now }
{
    if name.len() % 2 != 0 {
        return Err(Refusal::WrongSize);
    }
    let units = name.len() / 2;
    if !is_name_length(units) {
        return Err(Refusal::NameTooLong);
    }
    if has_lone_surrogate(name, 0, units) {
        return Err(Refusal::LoneSurrogate);
    }
    Ok(())
}

// The rules of a row, one after another from `at` on.
fn put_rules(row: &[Rule], out: &mut [u8], mut at: usize)
    requires { at + 66 * length row.now ≤ length out.old }
    ensures { out.new ≡ stored out.old at (rules_bytes row.now) }
{
    for rule in row {
        put_rule(out, at, *rule);
        at += 66;
    }
}

// Writes a definition from the output's start: how many bytes it has. The later bytes stay as they were, and a refusal writes none.
pub fn write_definition(name: &[u8], row: &[Rule], out: &mut [u8]) -> Result<usize, Refusal>
    ensures { (outcome_of result ≡ written (write_definition name.now row.now (length out.old))) × (out.new ≡ lent_after (write_definition name.now row.now (length out.old)) out.old) }
{
    check_name(name)?;
    check_row(row)?;
    let head = 10 + name.len();
    let length = head + 66 * row.len();
    if out.len() < length {
        return Err(Refusal::NoRoom);
    }
    put_header(out, name, row.len() as u16);
    put_rules(row, out, head);
    Ok(length)
}
