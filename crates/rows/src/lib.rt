// A row of rules: document 01's word for the rules of a zone in rising order of their years, lent as a slice.
#![tactic(auto)]

pub mod accepted;
pub mod checks;
pub mod places;
pub mod search;
