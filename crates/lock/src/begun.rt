// The list of the bookings that were begun on a tally: a line with a token for each. By it the one that holds the lock finds what those left that were killed, and lists no folder: that may be large, and hold names that are no text.
ghost use Rattle.std.specs.Prelude.{◌≤◌, length};

use crate::folders::{ready_name, remove_swept, swept_name};
use files::calls::{create, is_missing, open_append, rename, unlink};
use files::lines::is_token;
use files::names::{copy_name, new_name, with_ending};
use files::whole::{FileRead, fill, read_unsaid};
use std::io::{Error, ErrorKind};

fn list_name<'a>(name: &[u8], out: &'a mut [u8]) -> &'a [u8]
    ensures { length result.now ≤ length out.old }
{
    with_ending(name, b".begun", out)
}

// ---- adding to it
// Why a token did not get on the list. Removed: another one removed the list right now. Of what failed nothing was said.
#[derive(Clone, Copy)]
pub enum Unlisted {
    Removed,
    Failed(Error),
}

impl From<Error> for Unlisted {
    fn from(error: Error) -> Self {
        Unlisted::Failed(error)
    }
}

// What makes the list does not write to it: only a file that is open for appending keeps the lines of others. A list that is there already is as good.
fn make_list(rt: &HostRuntime, list: &[u8]) -> std::io::Result<()> {
    match create(rt, list) {
        Ok(_) => Ok(()),
        Err(error) if error.kind() == ErrorKind::AlreadyExists => Ok(()),
        Err(error) => Err(error),
    }
}

fn unopened(error: Error) -> Unlisted {
    if is_missing(&error) {
        Unlisted::Removed
    } else {
        Unlisted::Failed(error)
    }
}

fn append(rt: &HostRuntime, list: &[u8], line: &[u8]) -> Result<(), Unlisted> {
    let file = open_append(rt, list).map_err(unopened)?;
    fill(file, line)?;
    Ok(())
}

pub fn add_to_list(rt: &HostRuntime, name: &[u8], token: &[u8]) -> Result<(), Unlisted> {
    let mut file = io::buffer();
    let list = list_name(name, &mut file);
    make_list(rt, list)?;
    let mut line = io::buffer();
    append(rt, list, with_ending(token, b"\n", &mut line))
}

// ---- sweeping
fn move_ready(rt: &HostRuntime, name: &[u8], token: &[u8]) -> std::io::Result<()> {
    let mut ready = io::buffer();
    let mut swept = io::buffer();
    rename(
        rt,
        ready_name(name, token, &mut ready),
        swept_name(name, token, &mut swept),
    )
}

// The folder made ready loses its name first, so that its process finds it whole or not at all. One that a killed sweep left goes before.
fn sweep_folders(rt: &HostRuntime, name: &[u8], token: &[u8]) {
    remove_swept(rt, name, token);
    if move_ready(rt, name, token).is_ok() {
        remove_swept(rt, name, token);
    }
}

fn sweep_files(rt: &HostRuntime, name: &[u8], token: &[u8]) {
    let mut file = io::buffer();
    let _ = unlink(rt, new_name(name, token, &mut file));
    let _ = unlink(rt, copy_name(name, token, &mut file));
}

// What is no token is passed over, and so is the token of this process, which has nothing left.
fn sweep_line(rt: &HostRuntime, name: &[u8], line: &[u8], own: &[u8]) {
    if is_token(line) && line != own {
        sweep_folders(rt, name, line);
        sweep_files(rt, name, line);
    }
}

// A list that can't be read stays for a later booking. Of one that is longer than the room for it, the rest is passed over.
fn sweep_list(rt: &HostRuntime, name: &[u8], list: &[u8], own: &[u8]) {
    let mut text = io::large_buffer();
    let read = read_unsaid(rt, list, &mut text);
    if let Ok(FileRead::Whole(lines) | FileRead::TooLong(lines)) = read {
        for line in lines.split(|byte| *byte == b'\n') {
            sweep_line(rt, name, line, own);
        }
        let _ = unlink(rt, list);
    }
}

// Takes away what the bookings on the list left, and the list. Only the one that holds the lock does this. A booking that puts its token on the list meanwhile may lose the line: if it is then killed before it holds the lock, its ready folder stays, which counts for nothing.
pub fn sweep(rt: &HostRuntime, name: &[u8], own: &[u8]) {
    let mut list = io::buffer();
    sweep_list(rt, name, list_name(name, &mut list), own);
}
