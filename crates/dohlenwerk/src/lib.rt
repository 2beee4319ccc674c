// The calls for C, as include/dohlenwerk.h declares them, and nothing else.
// What they answer is made in `answers_for_c`.
#![tactic(auto)]

pub mod conversions;
pub mod definitions;
pub mod scripts;
pub mod tallies;
pub mod time;
pub mod zone_records;
