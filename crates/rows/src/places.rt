// Rules of a row by their place.
ghost use Rattle.std.specs.Prelude.{◌≡◌, slice_get};

use zone::rules::Rule;

// The rule at a place of a row, or none. It checks nothing.
pub fn rule_at(row: &[Rule], place: usize) -> Option<Rule>
    ensures { result ≡ slice_get row.now place }
{
    row.get(place).copied()
}
