// Which bias a rule of a time zone puts in force, one rule by value: document 01, "Which bias is in force".
#![tactic(auto)]

pub mod biases;
pub mod rule_bias;
pub mod shown;
pub mod stretches;
pub mod switches;
