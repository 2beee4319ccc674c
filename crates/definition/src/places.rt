// Where the kept rules of a definition stand, one after another.
ghost use Rattle.std.specs.Prelude.{◌≡◌, ◌+◌, ◌≤◌, length};
ghost use Rattle.definition.specs.Places.{after_rule, first_kept, next_kept, rule_from};

use crate::rules::rule_in;
use little_endian::fields::Field;
use zone::rules::{Rule, normal_rule};

// Past the rule at `at`, by its stated size.
fn after_rule(bytes: &[u8], at: usize) -> usize
    requires { at + 4 ≤ length bytes.now }
    ensures { result ≡ after_rule bytes.now at }
{
    at + 4 + u16::read(bytes, at + 2) as usize
}

// From `at` on, the first rule of major 2, or where the bytes end before another head.
pub fn first_kept(bytes: &[u8], at: usize) -> usize
    ensures { result ≡ first_kept bytes.now at }
{
    let mut place = at;
    while place < bytes.len() && place + 4 <= bytes.len() && bytes[place] != 2 {
        place = after_rule(bytes, place);
    }
    place
}

// The next one after the rule at `at`.
pub fn next_kept(bytes: &[u8], at: usize) -> usize
    requires { at + 4 ≤ length bytes.now }
    ensures { result ≡ next_kept bytes.now at }
{
    first_kept(bytes, after_rule(bytes, at))
}

// The rule whose 66 bytes start at `at`, in normal form.
pub fn rule_from(bytes: &[u8], at: usize) -> Rule
    requires { at + 66 ≤ length bytes.now }
    ensures { result ≡ rule_from bytes.now at }
{
    normal_rule(rule_in(bytes, at))
}
