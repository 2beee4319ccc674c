// What the tool shows on standard output and says on standard error.
#![tactic(auto)]

pub mod messages;
pub mod output;
mod system_words;
