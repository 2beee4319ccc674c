// The registry's record of one time zone rule (source document 002), read and written, and what all the records share: fields at a place, answers.
#![tactic(auto)]

pub mod layout;
pub mod registry;
