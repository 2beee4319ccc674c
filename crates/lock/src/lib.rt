// A booking holds its tally by a folder beside it, the lock, in which stand a file that says who holds it and an empty one, the mark, whose name is the holder's token. A folder made ready takes the lock's name in one step where there is none, or an empty one, and in no other case.
// Before it makes one, a booking puts its token on a list. The one that holds the lock takes away what those on the list left, and a folder that a living one makes ready, too: that one could not take the lock now, and begins again. The folder is renamed before it is emptied. So what stands under the ready folder's name has been touched by its own process alone, and what takes the lock's name always has its mark and its holder: had it lost both to a sweep that was killed, two could hold the lock.
#![tactic(auto)]

ghost use Rattle.std.specs.Prelude.{◌≤◌, length};

mod begun;
mod folders;
mod holder;
mod judging;
mod processes;
mod word_search;

use crate::begun::{Unlisted, add_to_list, sweep};
use crate::folders::{
    holder_name, lock_name, mark_name, ready_name, remove_folder, remove_holder, remove_mark,
    remove_swept,
};
use crate::holder::{holder_buffer, own_holder, token_of, whole_or_nothing};
use crate::judging::{Holder, judged};
use console::messages::{complain, complain_of_call, say, say_number};
use files::calls::{is_missing, mkdir, rename, rmdir};
use files::whole::write_unsaid;
use std::io::{Error, ErrorKind};

// Why a lock was not taken, which was said. Busy: another booking is at work, or may be.
#[derive(Clone, Copy, Debug, PartialEq, Eq)]
pub enum Untaken {
    Busy,
    Failed,
}

// What came of a round that did not take it. Swept: the folder made ready was taken away by the one that holds the lock.
#[derive(Clone, Copy)]
enum Unheld {
    Swept,
    Untaken(Untaken),
}

fn failed(name: &[u8], error: &Error) -> Unheld {
    complain_of_call(name, error);
    Unheld::Untaken(Untaken::Failed)
}

// A call on the folder made ready failed: where there is none, it was swept away.
fn swept_or_failed(name: &[u8], error: &Error) -> Unheld {
    if is_missing(error) {
        Unheld::Swept
    } else {
        failed(name, error)
    }
}

// ---- making ready
fn write_mark(rt: &HostRuntime, folder: &[u8], token: &[u8]) -> std::io::Result<()> {
    let mut file = io::buffer();
    write_unsaid(rt, mark_name(folder, token, &mut file), b"")
}

// It is flushed, so that after a power cut it still says who held the lock.
fn write_holder(rt: &HostRuntime, folder: &[u8], own: &[u8]) -> std::io::Result<()> {
    let mut file = io::buffer();
    write_unsaid(rt, holder_name(folder, &mut file), own)
}

fn write_ready(rt: &HostRuntime, folder: &[u8], token: &[u8], own: &[u8]) -> std::io::Result<()> {
    write_mark(rt, folder, token)?;
    write_holder(rt, folder, own)
}

// ---- who holds it
fn read_holder<'a>(rt: &HostRuntime, lock: &[u8], out: &'a mut [u8]) -> &'a [u8]
    ensures { length result.now ≤ length out.old }
{
    let mut file = io::buffer();
    whole_or_nothing(rt, holder_name(lock, &mut file), out)
}

fn holder_of(rt: &HostRuntime, lock: &[u8], own: &[u8]) -> Holder {
    let mut holder = holder_buffer();
    judged(rt, read_holder(rt, lock, &mut holder), own)
}

// ---- breaking
fn is_still_held_by(rt: &HostRuntime, lock: &[u8], holder: &[u8]) -> bool {
    let mut now = holder_buffer();
    read_holder(rt, lock, &mut now) == holder
}

// Takes the mark away. A lock that somebody took meanwhile has another mark and another holder, and stays whole; one without its mark was left by a process that was killed while it took it away.
fn is_unmarked(rt: &HostRuntime, lock: &[u8], holder: &[u8]) -> bool {
    match remove_mark(rt, lock, token_of(holder)) {
        Ok(()) => true,
        Err(error) => is_missing(&error) && is_still_held_by(rt, lock, holder),
    }
}

// The mark goes before the holder: what is left is always a lock that can be broken, or an empty folder. The token goes to the list before, since it may have been on one that was swept before its process held the lock.
fn break_lock(rt: &HostRuntime, name: &[u8], lock: &[u8], holder: &[u8]) {
    let _ = add_to_list(rt, name, token_of(holder));
    if is_unmarked(rt, lock, holder) {
        remove_holder(rt, lock);
    }
}

// Answers who was seen to hold it.
fn break_if_left(rt: &HostRuntime, name: &[u8], lock: &[u8], own: &[u8]) -> Holder {
    let mut text = holder_buffer();
    let holder = read_holder(rt, lock, &mut text);
    let held = judged(rt, holder, own);
    if held == Holder::Gone {
        break_lock(rt, name, lock, holder);
    }
    held
}

// ---- what is said
fn say_left(lock: &[u8]) {
    complain(
        lock,
        b"left over from a booking, or held by one that can't be seen from here; remove this folder where none is at work; nothing is changed",
    );
}

fn say_at_work(name: &[u8], lock: &[u8], number: u64) {
    say(b"hours: ");
    say(name);
    say(b": another booking is at work on it, process ");
    say_number(number);
    say(b", which holds ");
    say(lock);
    say(b"; nothing is changed, try again\n");
}

fn say_held(name: &[u8], lock: &[u8], held: Holder) {
    match held {
        Holder::AtWork(number) => say_at_work(name, lock, number),
        Holder::Gone | Holder::Untold => say_left(lock),
    }
}

// One that was seen at work may have given the lock back since; where none was, another one may have taken it.
fn say_seen(rt: &HostRuntime, name: &[u8], lock: &[u8], seen: Holder, own: &[u8]) {
    let held = match seen {
        Holder::AtWork(_) => seen,
        Holder::Gone | Holder::Untold => holder_of(rt, lock, own),
    };
    say_held(name, lock, held);
}

// ---- taking
// There is a lock that is not empty.
fn is_refused(error: &Error) -> bool {
    matches!(
        error.kind(),
        ErrorKind::DirectoryNotEmpty | ErrorKind::AlreadyExists
    )
}

fn refused(rt: &HostRuntime, name: &[u8], lock: &[u8], seen: Holder, own: &[u8]) -> Unheld {
    say_seen(rt, name, lock, seen, own);
    Unheld::Untaken(Untaken::Busy)
}

fn take_second(
    rt: &HostRuntime,
    name: &[u8],
    lock: &[u8],
    folder: &[u8],
    own: &[u8],
) -> Result<(), Unheld> {
    let seen = break_if_left(rt, name, lock, own);
    match rename(rt, folder, lock) {
        Ok(()) => Ok(()),
        Err(error) if is_refused(&error) => Err(refused(rt, name, lock, seen, own)),
        Err(error) => Err(swept_or_failed(lock, &error)),
    }
}

// Tried twice: the lock may be left over, or just be given back.
fn take_lock(
    rt: &HostRuntime,
    name: &[u8],
    lock: &[u8],
    folder: &[u8],
    own: &[u8],
) -> Result<(), Unheld> {
    match rename(rt, folder, lock) {
        Ok(()) => Ok(()),
        Err(error) if is_refused(&error) => take_second(rt, name, lock, folder, own),
        Err(error) => Err(swept_or_failed(lock, &error)),
    }
}

fn fill_and_take(
    rt: &HostRuntime,
    name: &[u8],
    folder: &[u8],
    token: &[u8],
    own: &[u8],
) -> Result<(), Unheld> {
    write_ready(rt, folder, token, own).map_err(|error| swept_or_failed(name, &error))?;
    let mut lock = io::buffer();
    take_lock(rt, name, lock_name(name, &mut lock), folder, own)
}

// Of what was swept away the one that did so may have left a part, and be killed.
fn clear(rt: &HostRuntime, name: &[u8], folder: &[u8], token: &[u8], why: Unheld) {
    match why {
        Unheld::Swept => remove_swept(rt, name, token),
        Unheld::Untaken(_) => remove_folder(rt, folder, token),
    }
}

fn ready_and_take(rt: &HostRuntime, name: &[u8], token: &[u8], own: &[u8]) -> Result<(), Unheld> {
    let mut ready = io::buffer();
    let folder = ready_name(name, token, &mut ready);
    mkdir(rt, folder).map_err(|error| failed(name, &error))?;
    let taken = fill_and_take(rt, name, folder, token, own);
    if let Err(why) = taken {
        clear(rt, name, folder, token, why);
    }
    taken
}

fn unlisted(name: &[u8], why: Unlisted) -> Unheld {
    match why {
        Unlisted::Removed => Unheld::Swept,
        Unlisted::Failed(error) => failed(name, &error),
    }
}

fn one_round(rt: &HostRuntime, name: &[u8], token: &[u8], own: &[u8]) -> Result<(), Unheld> {
    add_to_list(rt, name, token).map_err(|why| unlisted(name, why))?;
    ready_and_take(rt, name, token, own)
}

// Takes the lock of a tally. A round that was swept away is tried again, twice.
pub fn take(rt: &HostRuntime, name: &[u8], token: &[u8]) -> Result<(), Untaken> {
    let own = own_holder(rt, token);
    for _ in 0..3 {
        match one_round(rt, name, token, own.as_bytes()) {
            Ok(()) => return Ok(()),
            Err(Unheld::Swept) => {}
            Err(Unheld::Untaken(why)) => return Err(why),
        }
    }
    complain(
        name,
        b"another booking is at work on it; nothing is changed, try again",
    );
    Err(Untaken::Busy)
}

// ---- giving back
// Sweeps while the lock is held, and gives it back. A mark that can't be removed leaves the holder, too: the next booking sees that its process is gone. The empty folder may be another's already.
pub fn release(rt: &HostRuntime, name: &[u8], token: &[u8]) {
    sweep(rt, name, token);
    let mut file = io::buffer();
    let lock = lock_name(name, &mut file);
    if remove_mark(rt, lock, token).is_ok() {
        remove_holder(rt, lock);
        let _ = rmdir(rt, lock);
    }
}
