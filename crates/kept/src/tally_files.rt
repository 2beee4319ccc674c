// Tally files written: a booking's record in the place of the one before, a new tally, and an older one put back.
use crate::beside::zone_name;
use booking_job::tallies::new_record;
use console::messages::complain;
use files::calls::unlink;
use files::names::{copy_name, new_name, old_name};
use files::whole::{FileRead, Placed, Unwritten, put_in_place, read_file, replace_file, write_new};
use zones::reading::Kind;

// A file that has to be safe from a power cut before anything else is written.
fn replace_safely(
    rt: &HostRuntime,
    new: &[u8],
    name: &[u8],
    bytes: &[u8],
) -> Result<(), Unwritten> {
    match replace_file(rt, new, name, bytes)? {
        Placed::Safe => Ok(()),
        Placed::Unflushed => Err(Unwritten),
    }
}

// ---- a booking
// Whether the file still holds what was read from it before: another booking may have come in between.
fn is_unchanged(rt: &HostRuntime, name: &[u8], before: &[u8]) -> bool {
    let mut bytes = io::buffer();
    match read_file(rt, name, &mut bytes) {
        Ok(FileRead::Whole(now)) => now == before,
        Ok(FileRead::TooLong(_)) | Err(_) => false,
    }
}

// The tally as it is, kept for going back. It is safe before the new one takes its place: so it is never two bookings old.
fn keep_old(rt: &HostRuntime, name: &[u8], token: &[u8], before: &[u8]) -> Result<(), Unwritten> {
    let mut copy = io::buffer();
    let mut old = io::buffer();
    replace_safely(
        rt,
        copy_name(name, token, &mut copy),
        old_name(name, &mut old),
        before,
    )
}

fn make_way(rt: &HostRuntime, name: &[u8], token: &[u8], before: &[u8]) -> Result<(), Unwritten> {
    if is_unchanged(rt, name, before) {
        return keep_old(rt, name, token, before);
    }
    complain(
        name,
        b"changed by another booking meanwhile; nothing is booked",
    );
    Err(Unwritten)
}

// A record in the place of the one that was read before. Where that one does not make way, the new file goes again.
pub fn write_tally(
    rt: &HostRuntime,
    name: &[u8],
    token: &[u8],
    before: &[u8],
    record: &[u8],
) -> Result<Placed, Unwritten> {
    let mut new = io::buffer();
    let new = new_name(name, token, &mut new);
    write_new(rt, new, name, record)?;
    make_way(rt, name, token, before).inspect_err(|_| {
        let _ = unlink(rt, new);
    })?;
    put_in_place(rt, new, name)
}

// ---- a new tally
// A fresh tally, with the record of its zone beside it. The zone is written first: a tally never stands without it. Where the tally can't be written, its zone goes again: alone it would tell of a loss.
pub fn write_new_tally(
    rt: &HostRuntime,
    name: &[u8],
    token: &[u8],
    zone: &[u8],
    kind: Kind,
) -> Result<Placed, Unwritten> {
    let mut beside = io::buffer();
    let beside = zone_name(name, zone, kind, &mut beside);
    let mut new = io::buffer();
    let new = new_name(name, token, &mut new);
    replace_safely(rt, new, beside, zone)
        .and_then(|()| replace_file(rt, new, name, &new_record()))
        .inspect_err(|_| {
            let _ = unlink(rt, beside);
        })
}
