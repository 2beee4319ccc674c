// Time zone rules by value: what makes one sound, and its normal form; ticks of UTC and of local time. Source documents 000, 002 and 003, and document 01.
#![tactic(auto)]

pub mod biases;
pub mod dates;
pub mod rules;
pub mod ticks;
