// A definition's kept rules, stored into the caller's row from its start.
ghost use Rattle.std.specs.Prelude.{◌≡◌, ◌≤◌, length};
ghost use Rattle.refusal.specs.Lent.{written, lent_after};
ghost use Rattle.refusal.specs.Results.{outcome_of};
ghost use Rattle.struct_slices.specs.Loaded.{loaded};
ghost use Rattle.definition.specs.Definition.{read_into};
ghost use Rattle.definition.specs.Places.{next_kept, rule_from};
ghost use Rattle.definition_rows.specs.Reading.{RulesThere};

use definition::look::look;
use definition::places::{next_kept, rule_from};
use refusal::Refusal;
use zone::rules::Rule;

// The first n kept rules from `at` on, each at its place of the row.
fn load(bytes: &[u8], row: &mut [Rule], n: usize, mut at: usize)
    requires { (n ≤ length row.old) × RulesThere bytes.now n at }
    ensures { row.new ≡ loaded (rule_from bytes.now) (next_kept bytes.now) n at row.old }
{
    for rule in &mut row[..n] {
        *rule = rule_from(bytes, at);
        at = next_kept(bytes, at);
    }
}

// Reads a definition into a row: how many rules it keeps. The later rules of the row stay as they were, and a refusal stores none.
pub fn read_definition(bytes: &[u8], row: &mut [Rule]) -> Result<usize, Refusal>
    ensures { (outcome_of result ≡ written (read_into bytes.now (length row.old))) × (row.new ≡ lent_after (read_into bytes.now (length row.old)) row.old) }
{
    let found = look(bytes, row.len())?;
    load(bytes, row, found.kept, found.start);
    Ok(found.kept)
}
