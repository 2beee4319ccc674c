// A tally of running time by local weekday: booking a run, saving, reading back. Document 01, "The tally".
#![tactic(auto)]

pub mod booking;
pub mod saved;
pub mod tallies;
