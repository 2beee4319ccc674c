// Totals by a key: how many ticks have each of its values.
#![tactic(auto)]

pub mod weekdays;
