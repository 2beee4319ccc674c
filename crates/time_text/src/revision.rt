// The number of a revision of the time paper.
ghost use Rattle.std.specs.Prelude.{◌≡◌};
ghost use Rattle.time_text.specs.Revision.{revision_number};

use crate::decimal::decimal;

// The number that a text of digits writes, or 0, which is no revision, for any other text.
pub fn revision_number(s: &[u8]) -> u32
    ensures { result ≡ revision_number s.now }
{
    match decimal(s, 4294967295) {
        Some(n) => n as u32,
        None => 0,
    }
}
