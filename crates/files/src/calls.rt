// The calls on files by their names, which are bytes here. A call that failed gives the system's error.
ghost use Rattle.std.specs.Prelude.{◌≡◌, ◌≤◌, ◌↔◌, length, IsTrue, IfOk};
ghost use Rattle.std.specs.IoError.{error_kind};

use crate::names::with_ending;
use std::fs::{File, Metadata, OpenOptions};
use std::io::{Error, ErrorKind, Result};
use std::path::PathBuf;
use std::{fs, str};

// The system's number for bytes that are no text (EILSEQ).
const NO_TEXT: i32 = 84;

// A name as std takes it, which is text in UTF-8. Of any other one std can open no file.
pub fn path_of(name: &[u8]) -> Result<&str>
    ensures { IfOk result (λ path. path.now ≡ name.now) }
{
    str::from_utf8(name).map_err(|_| Error::from_raw_os_error(NO_TEXT))
}

// Whether there is no file of the name.
pub fn is_missing(error: &Error) -> bool
    ensures { IsTrue result ↔ (error_kind error.now ≡ ErrorKind.NotFound) }
{
    error.kind() == ErrorKind::NotFound
}

pub fn open_read(rt: &HostRuntime, name: &[u8]) -> Result<File> {
    OpenOptions::new().read(true).open(rt, path_of(name)?)
}

// A file that is there, which is not emptied.
pub fn open_write(rt: &HostRuntime, name: &[u8]) -> Result<File> {
    OpenOptions::new().write(true).open(rt, path_of(name)?)
}

// A file that is there: what is written lands at its end.
pub fn open_append(rt: &HostRuntime, name: &[u8]) -> Result<File> {
    OpenOptions::new().append(true).open(rt, path_of(name)?)
}

// A new file: one that is there already is refused.
pub fn create(rt: &HostRuntime, name: &[u8]) -> Result<File> {
    OpenOptions::new()
        .write(true)
        .create_new(true)
        .open(rt, path_of(name)?)
}

pub fn rename(rt: &HostRuntime, from: &[u8], name: &[u8]) -> Result<()> {
    fs::rename(rt, path_of(from)?, path_of(name)?)
}

pub fn unlink(rt: &HostRuntime, name: &[u8]) -> Result<()> {
    fs::remove_file(rt, path_of(name)?)
}

pub fn mkdir(rt: &HostRuntime, name: &[u8]) -> Result<()> {
    fs::create_dir(rt, path_of(name)?)
}

pub fn rmdir(rt: &HostRuntime, name: &[u8]) -> Result<()> {
    fs::remove_dir(rt, path_of(name)?)
}

// What the system knows of a file, and of what a link leads to.
pub fn metadata(rt: &HostRuntime, name: &[u8]) -> Result<Metadata> {
    fs::metadata(rt, path_of(name)?)
}

// The same of a link itself.
pub fn symlink_metadata(rt: &HostRuntime, name: &[u8]) -> Result<Metadata> {
    fs::symlink_metadata(rt, path_of(name)?)
}

fn read_link(rt: &HostRuntime, name: &[u8]) -> Result<PathBuf> {
    fs::read_link(rt, path_of(name)?)
}

// The name that a link leads to: nothing where it is no link, or has no room.
pub fn link_text<'a>(rt: &HostRuntime, name: &[u8], out: &'a mut [u8]) -> &'a [u8]
    ensures { length result.now ≤ length out.old }
{
    match read_link(rt, name) {
        Ok(text) => with_ending(text.as_path().as_str().as_bytes(), b"", out),
        Err(_) => &[],
    }
}
