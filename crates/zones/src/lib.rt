// Zones by value, for programs: read from any of the three records, and the calls in them.
#![tactic(auto)]

pub mod calls;
pub mod reading;
