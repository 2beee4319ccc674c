// Times and numbers, read from text: lent bytes that may hold anything.
#![tactic(auto)]

pub mod clock;
pub mod decimal;
pub mod faults;
pub mod number;
pub mod revision;
pub mod times;
