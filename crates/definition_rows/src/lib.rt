// A TZDEFINITION read into a lent row of rules, and written from one.
#![tactic(auto)]

pub mod reading;
pub mod writing;
