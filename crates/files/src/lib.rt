// Files, whole, their lines and their names.
#![tactic(auto)]

pub mod calls;
pub mod lines;
pub mod names;
pub mod whole;
