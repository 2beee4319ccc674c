// The command line: which command, with which arguments.
use crate::arguments::{argument, argument_count};
use crate::booking::book;
use crate::help::{show_help, show_version};
use crate::options::{Options, options_from};
use crate::statuses::{Failure, refused};
use crate::tallies::{begin_tally, sheet, undo};
use crate::times::{show_each_fields, show_each_local, show_each_number, show_each_utc};
use crate::zone_words::show_zone_file;
use calendar::revisions::{REVISION_1_2, check_revision};
use console::messages::say;
use files::names::{is_file_name, is_option};
use kept::zone_files::{read_zone_file, record_buffer};
use zones::reading::Zone;

fn wrong_usage() -> Failure {
    say(b"hours: wrong usage: hours --help says how\n");
    Failure::Usage
}

// The place of the argument behind the first one after the options, or of the one behind that.
fn behind(options: Options, places: usize) -> usize {
    options.next.saturating_add(places)
}

// How many arguments stand behind the options.
fn left(rt: &HostRuntime, options: Options) -> usize {
    argument_count(rt).saturating_sub(options.next)
}

// ---- the commands that take files
// The log that is named behind a tally: standard input where there is none.
fn log_named<'a>(rt: &HostRuntime, options: Options, out: &'a mut [u8]) -> &'a [u8] {
    if left(rt, options) < 3 {
        return b"-";
    }
    argument(rt, behind(options, 2), out)
}

fn run_book(rt: &HostRuntime, options: Options) -> Result<(), Failure> {
    if !(2..=3).contains(&left(rt, options)) {
        return Err(wrong_usage());
    }
    let mut zone = io::buffer();
    let zone = argument(rt, options.next, &mut zone);
    let mut tally = io::buffer();
    let tally = argument(rt, behind(options, 1), &mut tally);
    let mut log = io::buffer();
    let log = log_named(rt, options, &mut log);
    if !is_file_name(tally) || is_option(tally) || is_option(log) {
        return Err(wrong_usage());
    }
    book(rt, zone, tally, log, options.kind, options.csv)
}

fn run_new(rt: &HostRuntime, options: Options) -> Result<(), Failure> {
    if options.csv || left(rt, options) != 2 {
        return Err(wrong_usage());
    }
    let mut zone = io::buffer();
    let zone = argument(rt, options.next, &mut zone);
    let mut tally = io::buffer();
    let tally = argument(rt, behind(options, 1), &mut tally);
    if !is_file_name(tally) || is_option(tally) {
        return Err(wrong_usage());
    }
    begin_tally(rt, zone, tally, options.kind)
}

// The tally of a command that takes it alone.
fn tally_alone<'a>(
    rt: &HostRuntime,
    options: Options,
    out: &'a mut [u8],
) -> Result<&'a [u8], Failure> {
    if options.kind.is_some() || left(rt, options) != 1 {
        return Err(wrong_usage());
    }
    let tally = argument(rt, options.next, out);
    if !is_file_name(tally) {
        return Err(wrong_usage());
    }
    Ok(tally)
}

fn run_sheet(rt: &HostRuntime, options: Options) -> Result<(), Failure> {
    let mut tally = io::buffer();
    sheet(rt, tally_alone(rt, options, &mut tally)?, options.csv)
}

fn run_undo(rt: &HostRuntime, options: Options) -> Result<(), Failure> {
    let mut tally = io::buffer();
    undo(rt, tally_alone(rt, options, &mut tally)?, options.csv)
}

fn run_zone(rt: &HostRuntime, options: Options) -> Result<(), Failure> {
    if options.csv || left(rt, options) != 1 {
        return Err(wrong_usage());
    }
    let mut name = io::buffer();
    show_zone_file(rt, argument(rt, options.next, &mut name), options.kind)
}

// ---- the commands that take times
// The zone that stands before them.
fn zone_before(rt: &HostRuntime, options: Options) -> Result<Zone, Failure> {
    if options.csv || left(rt, options) < 2 {
        return Err(wrong_usage());
    }
    let mut name = io::buffer();
    let name = argument(rt, options.next, &mut name);
    let mut bytes = record_buffer();
    let file = read_zone_file(rt, name, options.kind, &mut bytes)?;
    Ok(file.zone)
}

fn is_option_at(rt: &HostRuntime, place: usize) -> bool {
    let mut word = io::buffer();
    is_option(argument(rt, place, &mut word))
}

// Whether an option stands behind an argument that is none, where it would come too late for those before it.
fn has_option_from(rt: &HostRuntime, place: usize) -> bool {
    (place..argument_count(rt)).any(|place| is_option_at(rt, place))
}

// The revision of the time paper for times alone, which is checked before any of them is read.
fn revision_of(rt: &HostRuntime, options: Options) -> Result<u32, Failure> {
    if options.csv
        || options.kind.is_some()
        || left(rt, options) < 1
        || has_option_from(rt, options.next)
    {
        return Err(wrong_usage());
    }
    let revision = options.revision.unwrap_or(REVISION_1_2);
    check_revision(revision).map_err(|why| refused(b"--revision", why))?;
    Ok(revision)
}

// ---- which it is
fn run_with(rt: &HostRuntime, word: &[u8], options: Options) -> Result<(), Failure> {
    match word {
        b"fields" => show_each_fields(rt, revision_of(rt, options)?, options.next),
        b"time" => show_each_number(rt, revision_of(rt, options)?, options.next),
        _ if options.revision.is_some() => Err(wrong_usage()),
        b"local" => show_each_local(rt, zone_before(rt, options)?, behind(options, 1)),
        b"utc" => show_each_utc(rt, zone_before(rt, options)?, behind(options, 1)),
        b"book" => run_book(rt, options),
        b"new" => run_new(rt, options),
        b"sheet" => run_sheet(rt, options),
        b"undo" => run_undo(rt, options),
        b"zone" => run_zone(rt, options),
        _ => Err(wrong_usage()),
    }
}

pub fn run(rt: &HostRuntime) -> Result<(), Failure> {
    let mut word = io::buffer();
    match argument(rt, 1, &mut word) {
        b"--help" => Ok(show_help(rt)?),
        b"--version" => Ok(show_version(rt)?),
        word => run_with(rt, word, options_from(rt, 2)?),
    }
}
