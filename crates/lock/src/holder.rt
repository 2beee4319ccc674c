// The text of a holder's file: a line each for the holder's token, its process number, the boot of its machine, its PID namespace, the machine's host name and the machine's own number, and then the start of its command line. A part that is not known is an empty line.
ghost use Rattle.std.specs.Prelude.{◌≡◌, ◌≤◌, length};

use crate::processes::{command_buffer, own_command};
use files::calls::link_text;
use files::lines::{behind_line, first_line, is_hex, up_to};
use files::names::own_number;
use files::whole::{FileRead, read_unsaid};

// Room for all of its parts.
pub fn holder_buffer() -> [u8; 8192]
    ensures { 8192 ≡ length result }
{
    [0; 8192]
}

// ---- its parts
// What stands behind so many lines of it.
fn behind(holder: &[u8], lines: usize) -> &[u8] {
    (0..lines).fold(holder, |text, _| behind_line(text))
}

// A line of it, by the number of those before it.
fn line(holder: &[u8], before: usize) -> &[u8] {
    first_line(behind(holder, before))
}

pub fn token_of(holder: &[u8]) -> &[u8] {
    line(holder, 0)
}

pub fn number_of(holder: &[u8]) -> &[u8] {
    line(holder, 1)
}

pub fn boot_of(holder: &[u8]) -> &[u8] {
    line(holder, 2)
}

pub fn namespace_of(holder: &[u8]) -> &[u8] {
    line(holder, 3)
}

pub fn host_of(holder: &[u8]) -> &[u8] {
    line(holder, 4)
}

pub fn machine_of(holder: &[u8]) -> &[u8] {
    line(holder, 5)
}

pub fn command_of(holder: &[u8]) -> &[u8] {
    behind(holder, 6)
}

// ---- this process
// What a file holds: nothing where it can't be read, or is too long.
pub fn whole_or_nothing<'a>(rt: &HostRuntime, file: &[u8], out: &'a mut [u8]) -> &'a [u8]
    ensures { length result.now ≤ length out.old }
{
    match read_unsaid(rt, file, out) {
        Ok(FileRead::Whole(bytes)) => bytes,
        Ok(FileRead::TooLong(_)) | Err(_) => &[],
    }
}

// A machine that has no number of its own yet has a word in its file, or nothing: any other may have the same.
fn machine_number(line: &[u8]) -> &[u8] {
    if is_hex(line, 32) { line } else { &[] }
}

// The text as it is put together: its room is more than all of its parts take.
#[derive(Drop)]
pub struct HolderText {
    bytes: [u8; 8192],
    len: usize,
    ghost within: { len ≤ 8192 },
}

impl HolderText {
    fn new() -> Self {
        Self {
            bytes: holder_buffer(),
            len: 0,
        }
    }

    pub fn as_bytes(&self) -> &[u8]
        ensures { length result.now ≤ 8192 }
    {
        &self.bytes[..self.len]
    }

    fn add(&mut self, part: &[u8]) {
        let end = self.len + part.len();
        if end <= self.bytes.len() {
            self.bytes[self.len..end].copy_from_slice(part);
            self.len = end;
        }
    }

    fn add_line(&mut self, line: &[u8]) {
        self.add(line);
        self.add(b"\n");
    }

    fn add_number(&mut self, rt: &HostRuntime) {
        let mut digits = [0; 20];
        self.add_line(own_number(rt, &mut digits));
    }

    fn add_boot(&mut self, rt: &HostRuntime) {
        let mut text = [0; 256];
        let boot = whole_or_nothing(rt, b"/proc/sys/kernel/random/boot_id", &mut text);
        self.add_line(first_line(boot));
    }

    fn add_namespace(&mut self, rt: &HostRuntime) {
        let mut text = [0; 256];
        let namespace = link_text(rt, b"/proc/self/ns/pid", &mut text);
        self.add_line(first_line(namespace));
    }

    // A host name ends at the first 0.
    fn add_host(&mut self, rt: &HostRuntime) {
        let mut text = [0; 256];
        let host = whole_or_nothing(rt, b"/proc/sys/kernel/hostname", &mut text);
        self.add_line(first_line(up_to(host, 0)));
    }

    fn add_machine(&mut self, rt: &HostRuntime) {
        let mut text = [0; 256];
        let machine = whole_or_nothing(rt, b"/etc/machine-id", &mut text);
        self.add_line(machine_number(first_line(machine)));
    }

    fn add_command(&mut self, rt: &HostRuntime) {
        let mut command = command_buffer();
        self.add(own_command(rt, &mut command));
    }
}

// What this process writes there.
pub fn own_holder(rt: &HostRuntime, token: &[u8]) -> HolderText {
    let mut text = HolderText::new();
    text.add_line(token);
    text.add_number(rt);
    text.add_boot(rt);
    text.add_namespace(rt);
    text.add_host(rt);
    text.add_machine(rt);
    text.add_command(rt);
    text
}
