// The folders of a lock: their names, what stands in them, and taking them away.
ghost use Rattle.std.specs.Prelude.{◌≤◌, length};

use files::calls::{rmdir, unlink};
use files::names::{with_ending, with_token};
use std::io::Result;

// ---- names
pub fn lock_name<'a>(name: &[u8], out: &'a mut [u8]) -> &'a [u8]
    ensures { length result.now ≤ length out.old }
{
    with_ending(name, b".lock", out)
}

// The folder that a process makes ready.
pub fn ready_name<'a>(name: &[u8], token: &[u8], out: &'a mut [u8]) -> &'a [u8]
    ensures { length result.now ≤ length out.old }
{
    with_token(name, b".lock-", token, out)
}

// The same once another process takes it away.
pub fn swept_name<'a>(name: &[u8], token: &[u8], out: &'a mut [u8]) -> &'a [u8]
    ensures { length result.now ≤ length out.old }
{
    with_token(name, b".swept-", token, out)
}

pub fn holder_name<'a>(folder: &[u8], out: &'a mut [u8]) -> &'a [u8]
    ensures { length result.now ≤ length out.old }
{
    with_ending(folder, b"/holder", out)
}

pub fn mark_name<'a>(folder: &[u8], token: &[u8], out: &'a mut [u8]) -> &'a [u8]
    ensures { length result.now ≤ length out.old }
{
    with_token(folder, b"/", token, out)
}

// ---- taking away
pub fn remove_holder(rt: &HostRuntime, folder: &[u8]) {
    let mut file = io::buffer();
    let _ = unlink(rt, holder_name(folder, &mut file));
}

pub fn remove_mark(rt: &HostRuntime, folder: &[u8], token: &[u8]) -> Result<()> {
    let mut file = io::buffer();
    unlink(rt, mark_name(folder, token, &mut file))
}

pub fn remove_folder(rt: &HostRuntime, folder: &[u8], token: &[u8]) {
    let _ = remove_mark(rt, folder, token);
    remove_holder(rt, folder);
    let _ = rmdir(rt, folder);
}

// What a sweep moved away and left, where it was killed.
pub fn remove_swept(rt: &HostRuntime, name: &[u8], token: &[u8]) {
    let mut folder = io::buffer();
    remove_folder(rt, swept_name(name, token, &mut folder), token);
}
