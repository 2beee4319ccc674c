// The main job: a log of runs booked on a tally file, and the sheet shown. What is written and what is shown come from `booking_job`, whole; nothing here works on a tally.
use crate::holding::while_held;
use crate::statuses::{Failure, Standing, refused, show_standing};
use booking_job::booking::{Begun, Start, begin};
use console::messages::{complain, complain_of_call};
use files::calls::open_read;
use files::whole::{FileRead, Unread, read_file};
use kept::beside::{is_lost, zone_name};
use kept::tally_files::write_tally;
use kept::zone_files::{ZoneFile, read_zone_file, record_buffer};
use log_files::{Source, read_log};
use run_log::Job;
use zones::reading::Kind;

// What is booked: the runs of a log, in a zone, on a tally.
#[derive(Clone, Copy)]
struct Booking<'a> {
    zone: &'a ZoneFile<'a>,
    name: &'a [u8],
    log_name: &'a [u8],
    as_csv: bool,
}

// ---- the log
fn log_opened(rt: &HostRuntime, log_name: &[u8]) -> std::io::Result<Source> {
    if log_name == b"-".as_slice() {
        return Ok(Source::Input);
    }
    Ok(Source::File(open_read(rt, log_name)?))
}

// The runs of a log, booked on a tally that is held. Where the booking stands, its record is written, and its page is what is shown.
fn book_log(
    rt: &HostRuntime,
    booking: Booking,
    token: &[u8],
    saved: &[u8],
    job: Job,
) -> Result<Standing, Failure> {
    let source = log_opened(rt, booking.log_name).map_err(|error| {
        complain_of_call(booking.log_name, &error);
        Failure::Refused
    })?;
    let done = read_log(
        rt,
        booking.zone.zone,
        booking.log_name,
        source,
        job,
        booking.as_csv,
    );
    if !done.stands {
        return Err(Failure::Refused);
    }
    let placed = write_tally(rt, booking.name, token, saved, &done.saved)?;
    Ok(Standing {
        placed,
        page: done.page,
    })
}

// ---- whether it may begin
fn other_zone(name: &[u8], is_missing: bool) -> Failure {
    if is_missing {
        complain(
            name,
            b"its zone record, kept beside it with the ending .zone, is missing",
        );
    } else {
        complain(
            name,
            b"booked in another zone: the record kept beside it, with the ending .zone, is not the one named now",
        );
    }
    Failure::Refused
}

// The job of a saved tally, by the record of the zone that it was kept in, which may be missing.
fn job_of(booking: Booking, kept: Option<&[u8]>, saved: &[u8]) -> Result<Job, Failure> {
    let Begun { found, job } = begin(booking.zone.record, kept.unwrap_or(b""), saved);
    match found {
        Start::Ready => Ok(job),
        Start::OtherZone => Err(other_zone(booking.name, kept.is_none())),
        Start::Refused(why) => Err(refused(booking.name, why)),
    }
}

fn book_saved(
    rt: &HostRuntime,
    booking: Booking,
    token: &[u8],
    saved: &[u8],
) -> Result<Standing, Failure> {
    let mut beside = io::buffer();
    let beside = zone_name(
        booking.name,
        booking.zone.record,
        booking.zone.kind,
        &mut beside,
    );
    let mut bytes = record_buffer();
    let kept = match read_file(rt, beside, &mut bytes) {
        Ok(FileRead::Whole(kept)) => Some(kept),
        Ok(FileRead::TooLong(_)) => return Err(other_zone(booking.name, false)),
        Err(Unread::Missing) => None,
        Err(Unread::Failed(_)) => return Err(Failure::Refused),
    };
    let job = job_of(booking, kept, saved)?;
    book_log(rt, booking, token, saved, job)
}

fn say_missing(rt: &HostRuntime, name: &[u8]) {
    if !is_lost(rt, name, false) {
        complain(
            name,
            b"there is no such tally; hours new begins one; nothing is booked",
        );
    }
}

// On a tally that is held. A file that is too long is no tally, which its first bytes show as well. It is not inlined, so that its room on the stack is not taken while the zone is read.
#[inline(never)]
fn book_held(rt: &HostRuntime, booking: Booking, token: &[u8]) -> Result<Standing, Failure> {
    let mut saved = io::buffer();
    match read_file(rt, booking.name, &mut saved) {
        Ok(FileRead::Whole(saved) | FileRead::TooLong(saved)) => {
            book_saved(rt, booking, token, saved)
        }
        Err(Unread::Missing) => {
            say_missing(rt, booking.name);
            Err(Failure::Refused)
        }
        Err(Unread::Failed(_)) => Err(Failure::Refused),
    }
}

// The sheet is shown once the tally is given back.
pub fn book(
    rt: &HostRuntime,
    zone_name: &[u8],
    name: &[u8],
    log_name: &[u8],
    asked: Option<Kind>,
    as_csv: bool,
) -> Result<(), Failure> {
    let mut record = record_buffer();
    let zone = read_zone_file(rt, zone_name, asked, &mut record)?;
    let booking = Booking {
        zone: &zone,
        name,
        log_name,
        as_csv,
    };
    let standing = while_held(rt, name, |token| book_held(rt, booking, token))?;
    show_standing(rt, name, b"booked", standing)
}
