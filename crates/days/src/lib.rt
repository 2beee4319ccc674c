// The Gregorian calendar from 1601 on, by the day and by the tick of 100 ns: years, months, dates, weekdays.
// specs/ has the definitions; the laws that join them to the code's short cuts are in proofs/.
#![tactic(auto)]

pub mod dates;
pub mod months;
pub mod ticks;
pub mod years;
