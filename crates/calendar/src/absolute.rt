// Absolute times and intervals.
ghost use Rattle.std.specs.Prelude.{◌≡◌};
ghost use Rattle.refusal.specs.Results.{outcome_of};
ghost use Rattle.calendar.specs.Absolute.{is_absolute};

use crate::revisions::{REVISION_1_0, check_revision};
use refusal::Refusal;

// Whether a TIME is absolute: above zero, or by revision 1.0 from zero up. Any other is an interval.
pub fn is_absolute(revision: u32, time: i64) -> Result<bool, Refusal>
    ensures { outcome_of result ≡ is_absolute revision time }
{
    check_revision(revision)?;
    if revision == REVISION_1_0 {
        return Ok(0 <= time);
    }
    Ok(0 < time)
}
