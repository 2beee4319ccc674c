// Tally files besides bookings: a new one, the sheet of one, and the last booking undone.
use crate::holding::while_held;
use crate::statuses::{Failure, Standing, refused, show_standing};
use booking_job::tallies::{Undo, sheet_of, undo_of};
use console::messages::{complain, say, say_name};
use console::output::show;
use files::names::old_name;
use files::whole::{FileRead, Placed, Unread, read_file, take_place};
use kept::beside::is_lost;
use kept::tally_files::write_new_tally;
use kept::zone_files::{ZoneFile, read_zone_file, record_buffer};
use page::Page;
use zones::reading::Kind;

// ---- a sheet
fn show_saved(rt: &HostRuntime, name: &[u8], saved: &[u8], as_csv: bool) -> Result<(), Failure> {
    let page = sheet_of(saved, as_csv).map_err(|why| refused(name, why))?;
    Ok(show(rt, page)?)
}

// The sheet of a tally file. One that is too long is no tally, which its first bytes show as well.
pub fn sheet(rt: &HostRuntime, name: &[u8], as_csv: bool) -> Result<(), Failure> {
    let mut saved = io::buffer();
    match read_file(rt, name, &mut saved) {
        Ok(FileRead::Whole(saved) | FileRead::TooLong(saved)) => {
            show_saved(rt, name, saved, as_csv)
        }
        Err(Unread::Missing) => {
            complain(name, b"there is no such file");
            Err(Failure::Refused)
        }
        Err(Unread::Failed(_)) => Err(Failure::Refused),
    }
}

// ---- a new tally
// Whether there is none, and none was lost.
fn may_begin(rt: &HostRuntime, name: &[u8]) -> bool {
    let mut saved = io::buffer();
    match read_file(rt, name, &mut saved) {
        Err(Unread::Missing) => !is_lost(rt, name, true),
        Err(Unread::Failed(_)) => false,
        Ok(_) => {
            complain(
                name,
                b"there is a file of this name already; nothing is begun",
            );
            false
        }
    }
}

fn begin_held(
    rt: &HostRuntime,
    name: &[u8],
    token: &[u8],
    zone: &ZoneFile,
) -> Result<Placed, Failure> {
    if !may_begin(rt, name) {
        return Err(Failure::Refused);
    }
    Ok(write_new_tally(rt, name, token, zone.record, zone.kind)?)
}

pub fn begin_tally(
    rt: &HostRuntime,
    zone_name: &[u8],
    name: &[u8],
    asked: Option<Kind>,
) -> Result<(), Failure> {
    let mut record = record_buffer();
    let zone = read_zone_file(rt, zone_name, asked, &mut record)?;
    match while_held(rt, name, |token| begin_held(rt, name, token, &zone))? {
        Placed::Safe => Ok(()),
        Placed::Unflushed => {
            complain(name, b"begun, but it may not survive a power cut");
            Err(Failure::NotSafe)
        }
    }
}

// ---- the last booking undone
fn nothing_to_undo(name: &[u8], before: &[u8], old: &[u8], after: &[u8]) -> Failure {
    say_name(name);
    say(b"nothing to undo: ");
    say(before);
    say(old);
    say(after);
    Failure::Refused
}

// The older tally in the place of the one that is saved.
fn put_back(
    rt: &HostRuntime,
    old_name: &[u8],
    name: &[u8],
    old: &[u8],
    as_csv: bool,
) -> Result<Standing, Failure> {
    let page = sheet_of(old, as_csv).unwrap_or(Page::blank());
    let placed = take_place(rt, old_name, name)?;
    Ok(Standing { placed, page })
}

// A tally that was lost, or is none any more, may be replaced, too.
fn undo_old(
    rt: &HostRuntime,
    old_name: &[u8],
    name: &[u8],
    old: &[u8],
    as_csv: bool,
) -> Result<Standing, Failure> {
    let mut saved = io::buffer();
    let saved: &[u8] = match read_file(rt, name, &mut saved) {
        Ok(FileRead::Whole(saved)) => saved,
        Ok(FileRead::TooLong(_)) | Err(Unread::Missing) => b"",
        Err(Unread::Failed(_)) => return Err(Failure::Refused),
    };
    match undo_of(old, saved) {
        Undo::Back => put_back(rt, old_name, name, old, as_csv),
        Undo::Same => Err(nothing_to_undo(name, b"", old_name, b" is the same tally\n")),
        Undo::Refused(why) => Err(refused(old_name, why)),
    }
}

fn undo_held(rt: &HostRuntime, name: &[u8], as_csv: bool) -> Result<Standing, Failure> {
    let mut file = io::buffer();
    let old_name = old_name(name, &mut file);
    let mut old = io::buffer();
    match read_file(rt, old_name, &mut old) {
        Ok(FileRead::Whole(old) | FileRead::TooLong(old)) => {
            undo_old(rt, old_name, name, old, as_csv)
        }
        Err(Unread::Missing) => Err(nothing_to_undo(name, b"there is no ", old_name, b"\n")),
        Err(Unread::Failed(_)) => Err(Failure::Refused),
    }
}

pub fn undo(rt: &HostRuntime, name: &[u8], as_csv: bool) -> Result<(), Failure> {
    let standing = while_held(rt, name, |_| undo_held(rt, name, as_csv))?;
    show_standing(rt, name, b"put back", standing)
}
