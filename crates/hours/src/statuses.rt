// The exit statuses, and what is said where a tally stands, but not all went well.
use console::messages::{complain_of_refusal, say, say_name};
use console::output::{NotShown, show};
use files::whole::{Placed, Unwritten};
use kept::zone_files::NoZone;
use page::Page;
use refusal::Refusal;
use std::process::ExitCode;

// Why a command ends with another exit status than 0. What is wrong was said.
#[derive(Clone, Copy, Debug, PartialEq, Eq)]
pub enum Failure {
    // Nothing was changed.
    Refused = 1,
    Usage,
    // Nothing was changed, since another booking is at work.
    AtWork,
    // The tally stands, and its sheet could not be shown.
    NotShown,
    // The tally stands, and may not survive a power cut.
    NotSafe,
}

impl From<Failure> for ExitCode {
    fn from(failure: Failure) -> ExitCode {
        ExitCode::from(failure as u8)
    }
}

impl From<NotShown> for Failure {
    fn from(_: NotShown) -> Failure {
        Failure::Refused
    }
}

impl From<NoZone> for Failure {
    fn from(_: NoZone) -> Failure {
        Failure::Refused
    }
}

impl From<Unwritten> for Failure {
    fn from(_: Unwritten) -> Failure {
        Failure::Refused
    }
}

// A word or a file is refused, which is said.
pub fn refused(name: &[u8], why: Refusal) -> Failure {
    complain_of_refusal(name, why);
    Failure::Refused
}

// A tally that stands, and the sheet of what it holds now.
#[derive(Clone, Copy)]
pub struct Standing {
    pub placed: Placed,
    pub page: Page,
}

fn say_but(name: &[u8], done: &[u8], but: &[u8]) {
    say_name(name);
    say(done);
    say(but);
}

// The end of a command that changed a tally; `done` says in a word what it did. A tally that stands is shown.
pub fn show_standing(
    rt: &HostRuntime,
    name: &[u8],
    done: &[u8],
    standing: Standing,
) -> Result<(), Failure> {
    if standing.placed == Placed::Unflushed {
        say_but(name, done, b", but it may not survive a power cut\n");
        let _ = show(rt, standing.page);
        return Err(Failure::NotSafe);
    }
    show(rt, standing.page).map_err(|_| {
        say_but(
            name,
            done,
            b", but the sheet could not be shown: hours sheet shows it\n",
        );
        Failure::NotShown
    })
}
