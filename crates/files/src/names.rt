// Names of files, and the token and the number of this process.
ghost use Rattle.std.specs.Prelude.{◌≡◌, ◌+◌, ◌≤◌, ◌++◌, length, IfSome};

use std::process;
use std::random::RandomSource;

pub fn is_option(word: &[u8]) -> bool {
    word.starts_with(b"--")
}

// Short enough for the names that the tool makes of it: a path has at most 4,095 bytes.
pub fn is_file_name(name: &[u8]) -> bool {
    (1..=4000).contains(&name.len())
}

// A name with an ending, made in lent bytes. Nothing where it is too long, since a name that is cut short is another file's.
pub fn with_ending<'a>(name: &[u8], ending: &[u8], out: &'a mut [u8]) -> &'a [u8]
    ensures prefix_len { length result.now ≤ length out.old }
    ensures text { length name.now + length ending.now ≤ length out.old → result.now ≡ name.now ++ ending.now }
{
    let len = name.len() + ending.len();
    if out.len() < len {
        return &[];
    }
    out[..name.len()].copy_from_slice(name);
    out[name.len()..len].copy_from_slice(ending);
    &out[..len]
}

// What leads up to the last byte of a kind, it included.
pub fn up_to_last(text: &[u8], byte: u8) -> Option<&[u8]>
    ensures { IfSome result (λ front. length front.now ≤ length text.now) }
{
    let place = text.iter().rposition(|other| *other == byte)?;
    Some(&text[..=place])
}

// ---- names with a token
// The token of a process, 16 hex digits, stands in the name of what it makes, so that no other one writes there: not one of another machine or container either, whose numbers are its own.
pub fn with_token<'a>(name: &[u8], ending: &[u8], token: &[u8], out: &'a mut [u8]) -> &'a [u8]
    ensures prefix_len { length result.now ≤ length out.old }
    ensures text { length ending.now + length token.now ≤ 4096 → length name.now + (length ending.now + length token.now) ≤ length out.old → result.now ≡ name.now ++ ending.now ++ token.now }
{
    let mut end = io::buffer();
    with_ending(name, with_ending(ending, token, &mut end), out)
}

// What takes a name's place once it is written.
pub fn new_name<'a>(name: &[u8], token: &[u8], out: &'a mut [u8]) -> &'a [u8]
    ensures { length result.now ≤ length out.old }
{
    with_token(name, b".new-", token, out)
}

// What takes the old one's place once it is written.
pub fn copy_name<'a>(name: &[u8], token: &[u8], out: &'a mut [u8]) -> &'a [u8]
    ensures { length result.now ≤ length out.old }
{
    with_token(name, b".old-", token, out)
}

pub fn old_name<'a>(name: &[u8], out: &'a mut [u8]) -> &'a [u8]
    ensures { length result.now ≤ length out.old }
{
    with_ending(name, b".old", out)
}

// ---- this process
// A token at random. It fails where the system has no random bytes.
pub fn own_token(rt: &HostRuntime) -> std::io::Result<[u8; 16]> {
    let mut bytes = [0; 8];
    rt.fill_bytes(&mut bytes)?;
    let mut token = [0; 16];
    io::hex(u64::from_le_bytes(bytes), 16, &mut token);
    Ok(token)
}

// The number of this process, in decimal digits.
pub fn own_number<'a>(rt: &HostRuntime, out: &'a mut [u8; 20]) -> &'a [u8]
    ensures { length result.now ≤ length out.old }
{
    let len = io::decimal(u64::from(process::id(rt.process())), out);
    &out[..len]
}

// ---- another process
// The number of a process, in decimal digits.
pub fn digits_of<'a>(pid: i32, out: &'a mut [u8; 20]) -> &'a [u8]
    ensures { length result.now ≤ length out.old }
{
    let len = io::decimal(u64::from(pid.cast_unsigned()), out);
    &out[..len]
}
