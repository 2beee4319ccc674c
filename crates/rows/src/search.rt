// The rule in force in a UTC year.
ghost use Rattle.std.specs.Prelude.{◌≡◌};
ghost use Rattle.struct_slices.specs.Places.{last_place};
ghost use Rattle.rows.specs.Search.{not_after, rule_in_force};

use zone::rules::Rule;

fn not_after(rule: Rule, year: u32) -> bool
    ensures { result ≡ not_after rule year }
{
    rule.year as u32 <= year
}

// The place of the rule with the greatest year not after a year, or none. Years rise, so the search goes from the back.
pub fn place_in_force(row: &[Rule], year: u32) -> Option<usize>
    ensures { result ≡ last_place (λ e. not_after e year) row.now }
{
    // With `?` the proof goes by what was found.
    let place = row.iter().rposition(|rule| not_after(*rule, year))?;
    Some(place)
}

pub fn rule_in_force(row: &[Rule], year: u32) -> Option<Rule>
    ensures { result ≡ rule_in_force row.now year }
{
    let place = place_in_force(row, year)?;
    Some(row[place])
}
