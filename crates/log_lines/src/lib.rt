// What a line of a log of runs says: a run, nothing to do, or what is wrong with it.
#![tactic(auto)]

pub mod faults;
pub mod lines;
