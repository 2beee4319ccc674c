// The answers as C sees them: functions by value, which the calls of `dohlenwerk` end with.
// An enum can't cross that boundary: an answer is a struct with the refusal's number first, 0 where the call is answered, and zeros beside a refusal, but for a tally's.
#![tactic(auto)]

pub mod conversions;
pub mod definitions;
pub mod tallies;
pub mod time;
pub mod zone_records;
