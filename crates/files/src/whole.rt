// Files, whole: read into lent bytes, and written so that a power cut leaves the old one or the new one.
ghost use Rattle.std.specs.Prelude.{◌≡◌, ◌≤◌, length, IfOk};
ghost use Rattle.files.specs.Paths.{Ended};
ghost use Rattle.files.specs.Reads.{bytes_of};

use crate::calls::{
    create, is_missing, metadata, open_read, open_write, rename, symlink_metadata, unlink,
};
use crate::names::{up_to_last, with_ending};
use console::messages::complain_of_call;
use std::fs::File;
use std::io::{Error, ErrorKind, Read, Write};

// ---- reading
// What a file holds: all of it, or the start of one that is too long for the lent bytes.
#[derive(Clone, Copy)]
pub enum FileRead<'a> {
    Whole(&'a [u8]),
    TooLong(&'a [u8]),
}

// Why nothing is known of what a file holds.
#[derive(Clone, Copy)]
pub enum Unread {
    Missing,
    Failed(Error),
}

// The bytes that were read, and the error of the read that failed, if one did.
#[derive(Drop)]
struct Filled {
    len: usize,
    error: Option<Error>,
}

// Reads until the bytes are full, the file ends or a read fails. `read_exact` does not say how much it read, and tries again after a signal.
fn read_full(file: &mut File, buf: &mut [u8]) -> Filled
    ensures prefix_len { result.len ≤ length buf.new }
    ensures len { length buf.new ≡ length buf.old }
{
    let mut len = 0;
    while len < buf.len() {
        match file.read(&mut buf[len..]) {
            Ok(0) => break,
            Ok(n) => len += n,
            Err(error) => {
                return Filled {
                    len,
                    error: Some(error),
                };
            }
        }
    }
    Filled { len, error: None }
}

// A read that failed took nothing, so that an end after it is the file's. A file that goes on behind bytes with room: a read of it failed, or its end was none.
fn read_opened<'a>(mut file: File, buf: &'a mut [u8]) -> std::io::Result<FileRead<'a>>
    ensures { IfOk result (λ read. length (bytes_of read) ≤ length buf.old) }
{
    let Filled { len, error } = read_full(&mut file, buf);
    let mut one = [0];
    if file.read(&mut one)? == 0 {
        return Ok(FileRead::Whole(&buf[..len]));
    }
    if len == buf.len() {
        return Ok(FileRead::TooLong(buf));
    }
    Err(error.unwrap_or(Error::from(ErrorKind::UnexpectedEof)))
}

// Why a file can't be opened: there may be none.
fn unopened(error: Error) -> Unread {
    if is_missing(&error) {
        Unread::Missing
    } else {
        Unread::Failed(error)
    }
}

// Nothing is said of what failed.
pub fn read_unsaid<'a>(
    rt: &HostRuntime,
    name: &[u8],
    buf: &'a mut [u8],
) -> Result<FileRead<'a>, Unread>
    ensures { IfOk result (λ read. length (bytes_of read) ≤ length buf.old) }
{
    let file = open_read(rt, name).map_err(unopened)?;
    read_opened(file, buf).map_err(Unread::Failed)
}

// The same, and what failed is said.
pub fn read_file<'a>(
    rt: &HostRuntime,
    name: &[u8],
    buf: &'a mut [u8],
) -> Result<FileRead<'a>, Unread>
    ensures { IfOk result (λ read. length (bytes_of read) ≤ length buf.old) }
{
    let read = read_unsaid(rt, name, buf);
    if let Err(Unread::Failed(error)) = read {
        complain_of_call(name, &error);
    }
    read
}

// ---- links
// A name with a 0 behind it, as C takes it. One that is too long becomes no name.
pub fn ended(name: &[u8]) -> [u8; 4096]
    ensures { Ended result }
{
    let mut path = io::buffer();
    with_ending(name, b"", &mut path);
    path[4095] = 0;
    path
}

pub fn is_link(rt: &HostRuntime, name: &[u8]) -> bool {
    symlink_metadata(rt, name).is_ok_and(|metadata| metadata.is_symlink())
}

// ---- permission
// A file is opened and closed again, which changes nothing. What is no file, as a folder, is told by what reads it.
fn try_write(rt: &HostRuntime, name: &[u8]) -> std::io::Result<()> {
    if metadata(rt, name)?.is_file() {
        open_write(rt, name)?;
    }
    Ok(())
}

// A file that is not there is not refused here, and one that is being run may be replaced.
fn may_be_replaced(error: &Error) -> bool {
    is_missing(error) | (error.kind() == ErrorKind::ExecutableFileBusy)
}

// Whether the user may write to a file: one that is not there is not refused here. Where not, it was said.
pub fn may_write(rt: &HostRuntime, name: &[u8]) -> bool {
    match try_write(rt, name) {
        Ok(()) => true,
        Err(error) if may_be_replaced(&error) => true,
        Err(error) => {
            complain_of_call(name, &error);
            false
        }
    }
}

// ---- flushing a folder
// The system's numbers for a call that a file system does not have (EINVAL, EOPNOTSUPP).
const INVALID: i32 = 22;

const NOT_SUPPORTED: i32 = 95;

// Not every file system flushes a folder. One that does not says so by one of two numbers.
fn is_unable(error: &Error) -> bool {
    matches!(error.raw_os_error(), Some(INVALID | NOT_SUPPORTED))
}

// It is closed once what failed was said.
fn flush_opened(folder: &[u8], opened: File) -> bool {
    match opened.sync_all() {
        Ok(()) => true,
        Err(error) if is_unable(&error) => true,
        Err(error) => {
            complain_of_call(folder, &error);
            false
        }
    }
}

// The folder's entry reaches the disk, too. Where not, it was said.
fn flush(rt: &HostRuntime, folder: &[u8]) -> bool {
    match open_read(rt, folder) {
        Ok(opened) => flush_opened(folder, opened),
        Err(error) => {
            complain_of_call(folder, &error);
            false
        }
    }
}

fn flush_folder_of(rt: &HostRuntime, name: &[u8]) -> bool {
    flush(rt, up_to_last(name, b'/').unwrap_or(b"."))
}

// ---- writing
// A file that was not written, or did not take its name; why was said.
#[derive(Clone, Copy, Debug, PartialEq, Eq)]
pub struct Unwritten;

// Written, flushed and closed. Each is tried in any case, so that the file is closed. What was flushed is on the disk, whatever its closing says.
pub fn fill(mut file: File, bytes: &[u8]) -> std::io::Result<()> {
    let written = file.write_all(bytes);
    file.sync_all()?;
    written
}

fn said(name: &[u8], error: &Error) -> Unwritten {
    complain_of_call(name, error);
    Unwritten
}

// Said before the new file goes, which may fail by itself.
fn give_up(rt: &HostRuntime, name: &[u8], new: &[u8], error: &Error) -> Unwritten {
    complain_of_call(name, error);
    let _ = unlink(rt, new);
    Unwritten
}

// A new file, written and flushed: nothing is said of what failed, and a part of it may stand there.
pub fn write_unsaid(rt: &HostRuntime, new: &[u8], bytes: &[u8]) -> std::io::Result<()> {
    fill(create(rt, new)?, bytes)
}

// The same, and what fails is said under the name under which it was to stand. A file that is there already is another's, and stays.
pub fn write_new(rt: &HostRuntime, new: &[u8], name: &[u8], bytes: &[u8]) -> Result<(), Unwritten> {
    let file = create(rt, new).map_err(|error| said(name, &error))?;
    fill(file, bytes).map_err(|error| give_up(rt, name, new, &error))
}

// How a file stands that took a name. Where it may not survive a power cut, that was said.
#[derive(Clone, Copy, Debug, PartialEq, Eq)]
pub enum Placed {
    Safe,
    Unflushed,
}

// A file takes another name, all at once, and what had that name is gone. Where that fails, nothing is said.
fn rename_flushed(rt: &HostRuntime, from: &[u8], name: &[u8]) -> std::io::Result<Placed> {
    rename(rt, from, name)?;
    if flush_folder_of(rt, name) {
        Ok(Placed::Safe)
    } else {
        Ok(Placed::Unflushed)
    }
}

// Puts a file that stands under another name in a file's place; where that fails, it stays.
pub fn take_place(rt: &HostRuntime, from: &[u8], name: &[u8]) -> Result<Placed, Unwritten> {
    rename_flushed(rt, from, name).map_err(|error| said(name, &error))
}

// Puts a new file in the place of an old one; where that fails, the new one goes.
pub fn put_in_place(rt: &HostRuntime, new: &[u8], name: &[u8]) -> Result<Placed, Unwritten> {
    rename_flushed(rt, new, name).map_err(|error| give_up(rt, name, new, &error))
}

// Writes a file beside the old one, flushes it to the disk and renames it: a power cut leaves the old one or the new one.
pub fn replace_file(
    rt: &HostRuntime,
    new: &[u8],
    name: &[u8],
    bytes: &[u8],
) -> Result<Placed, Unwritten> {
    write_new(rt, new, name, bytes)?;
    put_in_place(rt, new, name)
}
