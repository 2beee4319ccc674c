// The tool `hours`: the Monday sheet from a zone record, a tally file and a log of runs. Only here are files read and written; what is worked out stands in the libraries below.
#![tactic(auto)]

mod arguments;
mod booking;
mod commands;
mod help;
mod holding;
mod options;
mod statuses;
mod tallies;
mod times;
mod zone_words;

pub use statuses::Failure;
use std::process::ExitCode;

// Does what the program's arguments ask.
pub fn run(rt: &HostRuntime) -> Result<(), Failure> {
    commands::run(rt)
}

// The same, and answers the exit status.
pub fn status(rt: &HostRuntime) -> i32 {
    match run(rt) {
        Ok(()) => 0,
        Err(failure) => failure as i32,
    }
}

// The same for a program's `main` to end with. Of a status the system takes the low 8 bits; none here has more.
pub fn hours_status(rt: &HostRuntime) -> ExitCode {
    ExitCode::from((status(rt).cast_unsigned() % 256) as u8)
}
