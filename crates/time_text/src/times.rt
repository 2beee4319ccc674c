// Texts that are times, of UTC or of local time.
ghost use Rattle.std.specs.Prelude.{◌≡◌};
ghost use Rattle.time_text.specs.Times.{utc_time, local_time};

use crate::clock::clock_time;
use crate::faults::TextFault;
use crate::number::number_time;
use calendar::revisions::REVISION_1_2;

// A time of UTC: a clock text, by a revision, with `Z` behind it, or a number.
pub fn utc_time(revision: u32, s: &[u8]) -> Result<i64, TextFault>
    ensures { result ≡ utc_time revision s.now }
{
    match s.strip_suffix(b"Z") {
        Some(clock) => clock_time(revision, clock),
        None => number_time(s),
    }
}

// A local time: a number, or a clock text.
pub fn local_time(s: &[u8]) -> Result<i64, TextFault>
    ensures { result ≡ local_time s.now }
{
    match number_time(s) {
        Err(TextFault::NotATime) => clock_time(REVISION_1_2, s),
        said => said,
    }
}
