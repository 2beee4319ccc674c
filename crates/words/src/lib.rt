// What the tool says, put on a page: names of the calendar, refusals in the paper's words, zone rules and names.
#![tactic(auto)]

pub mod names;
pub mod refusals;
pub mod rules;
pub mod signed;
pub mod units;
