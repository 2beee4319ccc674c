// UTC to local time and back, in a row of rules. Document 01, "Which bias is in force".
#![tactic(auto)]

mod doors;
pub mod to_local;
pub mod to_utc;
