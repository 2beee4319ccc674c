// Whether a process of this PID namespace is gone, by its number and the command line that it was started with.
ghost use Rattle.std.specs.Prelude.{◌≡◌, ◌≤◌, length, IfSome};

use crate::word_search::lacks;
use files::calls::{is_missing, link_text, metadata};
use files::names::{digits_of, with_ending};
use files::whole::{FileRead, read_unsaid};

// ---- command lines
// Room for as much of a command line as is compared.
pub fn command_buffer() -> [u8; 4000]
    ensures { 4000 ≡ length result }
{
    [0; 4000]
}

// The start of a command line, where it is known. That of a process that has ended, and is kept for its parent, is empty.
fn read_command<'a>(rt: &HostRuntime, file: &[u8], out: &'a mut [u8]) -> Option<&'a [u8]>
    ensures { IfSome result (λ command. length command.now ≤ length out.old) }
{
    match read_unsaid(rt, file, out) {
        Ok(FileRead::Whole(command) | FileRead::TooLong(command)) => Some(command),
        Err(_) => None,
    }
}

// The start of this process's command line: nothing where it can't be read whole, since a part would be taken for another one's.
pub fn own_command<'a>(rt: &HostRuntime, out: &'a mut [u8]) -> &'a [u8]
    ensures { length result.now ≤ length out.old }
{
    read_command(rt, b"/proc/self/cmdline", out).unwrap_or(&[])
}

fn command_file<'a>(number: &[u8], out: &'a mut [u8]) -> &'a [u8]
    ensures { length result.now ≤ length out.old }
{
    let mut ending = io::buffer();
    with_ending(
        b"/proc/",
        with_ending(number, b"/cmdline", &mut ending),
        out,
    )
}

// Whether the process of a number can be seen to have another command line.
fn has_other_command(rt: &HostRuntime, number: &[u8], kept: &[u8]) -> bool {
    let mut file = io::buffer();
    let mut bytes = command_buffer();
    read_command(rt, command_file(number, &mut file), &mut bytes).is_some_and(|command| command
        != kept)
}

// ---- gone
// A /proc of an outer namespace, in which this process may have its own number by chance, lists behind it the numbers in the inner ones.
fn is_innermost(rt: &HostRuntime, own: &[u8]) -> bool {
    let mut start = io::buffer();
    let mut word = io::buffer();
    let start = with_ending(b"\nNSpid:\t", own, &mut start);
    lacks(
        rt,
        b"/proc/self/status",
        with_ending(start, b"\t", &mut word),
    )
}

// Whether /proc has the numbers of this process's namespace: one that is seen from within another namespace has others.
fn has_own_numbers(rt: &HostRuntime, own: &[u8]) -> bool {
    let mut number = [0; 20];
    link_text(rt, b"/proc/self", &mut number) == own && is_innermost(rt, own)
}

// A /proc may hide the processes of others. One that is mounted anywhere with this option counts, since it may be the one that is seen here.
fn hides_none(rt: &HostRuntime) -> bool {
    lacks(rt, b"/proc/self/mountinfo", b"hidepid=")
}

// Whether /proc has each process of this namespace, under its number here.
fn has_all(rt: &HostRuntime, own: &[u8]) -> bool {
    has_own_numbers(rt, own) && hides_none(rt)
}

// Whether /proc shows no process of a number. Only what is known to be missing counts: a folder that can't be asked for is there.
pub fn is_unseen(rt: &HostRuntime, pid: i32) -> bool {
    let mut digits = [0; 20];
    let mut folder = io::buffer();
    let folder = with_ending(b"/proc/", digits_of(pid, &mut digits), &mut folder);
    metadata(rt, folder).is_err_and(|error| is_missing(&error))
}

// Without evidence a number is used. The number 0 is this process's own.
fn is_unused(rt: &HostRuntime, pid: i32, own: &[u8]) -> bool {
    pid != 0 && is_unseen(rt, pid) && has_all(rt, own)
}

// Whether a number is that of another process now, with another command line than a known one.
fn is_anothers(rt: &HostRuntime, number: &[u8], command: &[u8], own: &[u8]) -> bool {
    !command.is_empty() && has_own_numbers(rt, own) && has_other_command(rt, number, command)
}

// Whether another process than this one, which had a number and a command line, is gone. Without evidence it is not: its number is this one's own now, or nobody's, or that of a process with another command line.
pub fn is_gone(rt: &HostRuntime, number: &[u8], pid: i32, command: &[u8], own: &[u8]) -> bool {
    number == own || is_unused(rt, pid, own) || is_anothers(rt, number, command, own)
}
