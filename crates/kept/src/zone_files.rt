// Zone records in files, as raw bytes or hex text.
ghost use Rattle.std.specs.Prelude.{◌≡◌, ◌≤◌, length, IfOk};

use booking_job::zone_text::{ZoneFault, ZoneRead, ZoneText, zone_in};
use console::messages::{complain, complain_of_refusal, say, say_refusal};
use files::whole::{FileRead, Unread, read_file};
use refusal::Refusal;
use zones::reading::{Kind, Zone, ask_readers};

// ---- the bytes
// Room for the longest record as hex text, and for the longest normal one with a separator after each byte.
fn text_buffer() -> [u8; 262144]
    ensures { 262144 ≡ length result }
{
    [0; 262144]
}

// Room for a record. The longest normal definition has 68,114 bytes.
pub fn record_buffer() -> [u8; 131072]
    ensures { 131072 ≡ length result }
{
    [0; 131072]
}

// ---- why there is none
fn say_check(reader: &[u8], check: Result<(), Refusal>) {
    if let Err(why) = check {
        say(b"  as ");
        say(reader);
        say(b": ");
        say_refusal(why);
    }
}

// Why none of the readers accepts the bytes.
fn say_all_checks(name: &[u8], bytes: &[u8]) {
    complain(name, b"no reader of zone records accepts it");
    let readers = ask_readers(bytes);
    say_check(b"registry", readers.registry);
    say_check(b"remote-desktop", readers.remote_desktop);
    say_check(b"definition", readers.definition);
}

fn say_too_long(name: &[u8]) {
    complain(name, b"too long for a zone record");
}

// A file that holds no zone; why was said.
#[derive(Clone, Copy, Debug, PartialEq, Eq)]
pub struct NoZone;

// What is wrong with a file's text is said.
fn said(name: &[u8], bytes: &[u8], fault: ZoneFault) -> NoZone {
    match fault {
        ZoneFault::Refused(why) => complain_of_refusal(name, why),
        ZoneFault::Nothing => say_all_checks(name, bytes),
        ZoneFault::Several => complain(
            name,
            b"more than one reader accepts it: --as KIND says which",
        ),
        ZoneFault::TooLong => say_too_long(name),
    }
    NoZone
}

// ---- the zone
// The zone of a file, its kind, and its record's bytes.
#[derive(Clone, Copy)]
pub struct ZoneFile<'a> {
    pub zone: Zone,
    pub kind: Kind,
    pub record: &'a [u8],
}

// The zone of a file's text.
fn zone_told<'a>(
    name: &[u8],
    text: &[u8],
    asked: Option<Kind>,
    bytes: &'a mut [u8],
) -> Result<ZoneFile<'a>, NoZone>
    ensures { IfOk result (λ file. length file.record.now ≤ length bytes.old) }
{
    let ZoneText { found, len } = zone_in(text, asked, bytes);
    let record = &bytes[..len];
    let ZoneRead { kind, zone } = found.map_err(|fault| said(name, record, fault))?;
    Ok(ZoneFile { zone, kind, record })
}

// The zone of a file. Its record's bytes are put at the start of lent ones.
pub fn read_zone_file<'a>(
    rt: &HostRuntime,
    name: &[u8],
    asked: Option<Kind>,
    bytes: &'a mut [u8],
) -> Result<ZoneFile<'a>, NoZone>
    ensures { IfOk result (λ file. length file.record.now ≤ length bytes.old) }
{
    let mut text = text_buffer();
    match read_file(rt, name, &mut text) {
        Ok(FileRead::Whole(text)) => return zone_told(name, text, asked, bytes),
        Ok(FileRead::TooLong(_)) => say_too_long(name),
        Err(Unread::Missing) => complain(name, b"there is no such file"),
        Err(Unread::Failed(_)) => {}
    }
    Err(NoZone)
}
