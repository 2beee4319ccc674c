// A tally is held from before it is read until it is written.
use crate::statuses::Failure;
use console::messages::{complain, complain_of_call};
use files::names::own_token;
use files::whole::{is_link, may_write};
use lock::{Untaken, release, take};

impl From<Untaken> for Failure {
    fn from(why: Untaken) -> Failure {
        match why {
            Untaken::Busy => Failure::AtWork,
            Untaken::Failed => Failure::Refused,
        }
    }
}

// A link would become a file, and the one that it names fall behind. Where it may not be replaced, that is said.
fn may_replace(rt: &HostRuntime, name: &[u8]) -> bool {
    if is_link(rt, name) {
        complain(name, b"a link; name the file itself");
        return false;
    }
    may_write(rt, name)
}

// Does some work on a tally that is held for it, under a token that no other process has. Where it can't be held, that is said.
pub fn while_held<T, F: FnOnce(&[u8; 16]) -> Result<T, Failure>>(
    rt: &HostRuntime,
    name: &[u8],
    work: F,
) -> Result<T, Failure>
    requires { F.IsAlwaysCallable work }
{
    if !may_replace(rt, name) {
        return Err(Failure::Refused);
    }
    let token = own_token(rt).map_err(|error| {
        complain_of_call(name, &error);
        Failure::Refused
    })?;
    take(rt, name, &token)?;
    let done = work(&token);
    release(rt, name, &token);
    done
}
