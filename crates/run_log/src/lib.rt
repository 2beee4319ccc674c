// A log of runs, booked on a tally, from its bytes, which come in pieces of any length. Nothing here calls the system.
#![tactic(auto)]

ghost use Rattle.std.specs.Prelude.{Some, Ok, ◌≡◌, ◌+◌, ◌<◌, ◌≤◌, length, drop, set};
ghost use Rattle.zones.specs.Zones.{row_of};
ghost use Rattle.run_log.specs.Log.{one_more, with_fault, said, next_line, text_taken, mark_length, line_taken, first_line};
ghost use Rattle.run_log.specs.Feed.{fed, end_of, state_of, part_fed, job_within};

use little_endian::fields::put_bytes;
use log_lines::faults::Fault;
use log_lines::lines::log_line;
use tally::tallies::Tally;
use zone::ticks::UtcTick;
use zones::calls::book;
use zones::reading::Zone;

// A wrong line, by its number from 1.
#[derive(Clone, Copy)]
pub struct Note {
    pub line: u64,
    pub fault: Fault,
}

// How far a log is booked: the lines that were taken, how many of them were wrong, and the first 20 of those.
#[derive(Clone, Copy)]
pub struct Log {
    pub tally: Tally,
    pub lines: u64,
    pub faults: u64,
    pub noted: [Note; 20],
}

fn one_more(n: u64) -> u64
    ensures { result ≡ one_more n }
{
    if n < 9223372036854775807 {
        return n + 1;
    }
    n
}

// ---- faults
// More than 20 are counted and not noted.
fn noting(mut noted: [Note; 20], at: u64, note: Note) -> [Note; 20]
    ensures { result ≡ set noted at note }
{
    if at < 20 {
        noted[at as usize] = note;
    }
    noted
}

fn with_fault(log: Log, fault: Fault) -> Log
    ensures { result ≡ with_fault fault log }
{
    let note = Note {
        line: log.lines,
        fault,
    };
    Log {
        faults: one_more(log.faults),
        noted: noting(log.noted, log.faults, note),
        ..log
    }
}

// ---- a line
fn take_run(zone: Zone, log: Log, from: UtcTick, to: UtcTick) -> Log
    ensures { result ≡ said (row_of zone) (Ok (Some (from, to))) log }
{
    let answer = book(zone, log.tally, from, to);
    match answer.check {
        Ok(()) => Log {
            tally: answer.tally,
            ..log
        },
        Err(why) => with_fault(log, Fault::Refused(why)),
    }
}

fn next_line(log: Log) -> Log
    ensures { result ≡ next_line log }
{
    Log {
        lines: one_more(log.lines),
        ..log
    }
}

#[tactic(auto, unfolding(crate::specs::Log::text_taken))]
fn take_text(zone: Zone, text: &[u8], before: Log) -> Log
    ensures { result ≡ text_taken (row_of zone) text.now before }
{
    let log = next_line(before);
    match log_line(text) {
        Ok(None) => log,
        Ok(Some((from, to))) => take_run(zone, log, from, to),
        Err(fault) => with_fault(log, fault),
    }
}

// ---- the byte order mark
// How many bytes of a line are no text: programs on Windows put the mark at the very start of a log.
fn mark_length(before: u64, line: &[u8]) -> usize
    ensures { (result ≡ mark_length before line.now) × (result ≤ length line.now) }
{
    match line {
        [0xEF, 0xBB, 0xBF, ..] if before == 0 => 3,
        _ => 0,
    }
}

#[tactic(auto, unfolding(crate::specs::Log::line_taken))]
fn take_line(zone: Zone, line: &[u8], before: Log) -> Log
    ensures { result ≡ line_taken (row_of zone) line.now before }
{
    let from = mark_length(before.lines, line);
    take_text(zone, &line[from..], before)
}

// ---- pieces
// How far a log is fed: the first `len` of the lent bytes are the start of a line. After a line that was too long it is stopped.
#[derive(Clone, Copy)]
pub struct Job {
    pub log: Log,
    pub len: usize,
    pub stopped: bool,
}

// A part of a line put behind what is carried. Where the line's end follows, the line is taken.
fn add_part(zone: Zone, bytes: &mut [u8], job: Job, part: &[u8], ended: bool) -> Job
    requires { job.len ≤ length bytes.old }
    ensures { (state_of result bytes.new ≡ part_fed (row_of zone) (length bytes.old) (state_of job bytes.old) part.now ended) × (result.len ≤ length bytes.new) × (length bytes.new ≡ length bytes.old) }
{
    let len = job.len;
    let log = job.log;
    if bytes.len() - len < part.len() {
        return Job {
            log: with_fault(next_line(log), Fault::TooLong),
            len: 0,
            stopped: true,
        };
    }
    put_bytes(bytes, len, part);
    let n = len + part.len();
    if ended {
        return Job {
            log: take_line(zone, &bytes[..n], log),
            len: 0,
            stopped: false,
        };
    }
    Job {
        log,
        len: n,
        stopped: false,
    }
}

// A length above that of the lent bytes stands for all of them.
fn within(job: Job, most: usize) -> Job
    ensures { result ≡ job_within job most }
{
    Job {
        len: job.len.min(most),
        ..job
    }
}

// A piece of a log more.
pub fn feed(zone: Zone, bytes: &mut [u8], job: Job, piece: &[u8]) -> Job
    ensures { (state_of result bytes.new ≡ fed (row_of zone) (length bytes.old) (state_of job bytes.old) piece.now) × (length bytes.new ≡ length bytes.old) }
{
    let mut job = within(job, bytes.len());
    for line in piece.split_inclusive(|byte| *byte == b'\n') {
        if job.stopped {
            return job;
        }
        job = match line.strip_suffix(b"\n") {
            Some(part) => add_part(zone, bytes, job, part, true),
            None => add_part(zone, bytes, job, line, false),
        };
    }
    job
}

// The log at its end.
#[tactic(auto, unfolding(crate::specs::Feed::end_of))]
pub fn end(zone: Zone, bytes: &[u8], job: Job) -> Log
    ensures { result ≡ end_of (row_of zone) (state_of job bytes.now) }
{
    if job.stopped {
        return job.log;
    }
    let len = job.len.min(bytes.len());
    if len == 0 {
        return job.log;
    }
    take_line(zone, &bytes[..len], job.log)
}
