// What stands beside a tally: the record of its zone, since the tally says nothing of it, and the tally from before the last booking.
ghost use Rattle.std.specs.Prelude.{◌≤◌, length};

use console::messages::{say, say_name};
use files::names::with_ending;
use files::whole::{Unread, read_unsaid};
use zones::reading::{Choice, Kind, choose};

// ---- the zone's name
// A record that more than one reader accepts is kept under its kind, so that it is not taken for another zone's.
fn ending_of(record: &[u8], kind: Kind) -> &'static [u8]
    ensures { length result.now ≤ 20 }
{
    match (choose(record), kind) {
        (Choice::Several, Kind::Registry) => b".zone-registry",
        (Choice::Several, Kind::RemoteDesktop) => b".zone-remote-desktop",
        (Choice::Several, Kind::Definition) => b".zone-definition",
        (Choice::One(_) | Choice::Nothing, _) => b".zone",
    }
}

pub fn zone_name<'a>(name: &[u8], record: &[u8], kind: Kind, out: &'a mut [u8]) -> &'a [u8]
    ensures { length result.now ≤ length out.old }
{
    with_ending(name, ending_of(record, kind), out)
}

// ---- a loss
// What tells of a tally that is not there: a zone record of it, of whatever kind, or the older tally.
const EVIDENCE: [&[u8]; 5] = [
    b".zone",
    b".zone-registry",
    b".zone-remote-desktop",
    b".zone-definition",
    b".old",
];

// What can't be read is there, too.
fn is_there(rt: &HostRuntime, name: &[u8]) -> bool {
    let mut one = [0];
    !matches!(read_unsaid(rt, name, &mut one), Err(Unread::Missing))
}

// What a missing tally left beside it is told by: a booking can only be refused, a new tally be begun once it is gone.
fn say_lost(name: &[u8], beside: &[u8], is_new: bool) {
    say_name(name);
    if is_new {
        say(b"a tally of this name was lost: ");
        say(beside);
        say(b" stands there without it; put it back from a copy, or remove ");
        say(beside);
        say(b" to begin anew\n");
        return;
    }
    say(b"the tally is lost: ");
    say(beside);
    say(b" stands there without it; put it back from a copy; nothing is booked\n");
}

fn is_left(rt: &HostRuntime, name: &[u8], ending: &[u8], is_new: bool) -> bool {
    let mut beside = io::buffer();
    let beside = with_ending(name, ending, &mut beside);
    let is_there = is_there(rt, beside);
    if is_there {
        say_lost(name, beside, is_new);
    }
    is_there
}

// Whether a tally that is not there was lost, which is said then.
pub fn is_lost(rt: &HostRuntime, name: &[u8], is_new: bool) -> bool {
    EVIDENCE
        .iter()
        .any(|ending| is_left(rt, name, ending, is_new))
}
