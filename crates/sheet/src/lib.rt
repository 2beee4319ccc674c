// The Monday sheet: a tally as text that is signed, hours and minutes run by local weekday.
#![tactic(auto)]

pub mod csv;
pub mod hours;
pub mod names;
pub mod table;
pub mod total;
