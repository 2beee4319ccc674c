// A booking: begun from the bytes that stand in files, fed with the log, and finished.
ghost use Rattle.std.specs.Prelude.{◌≡◌, length};
ghost use Rattle.page.specs.Pages.{text_of};
ghost use Rattle.tally.specs.Saved.{read_tally};
ghost use Rattle.tally.specs.Answers.{or_else, no_tally};
ghost use Rattle.zones.specs.Zones.{row_of};
ghost use Rattle.run_log.specs.Feed.{end_of, state_of};
ghost use Rattle.booking_job.specs.Booked.{start_in, start_of, open_job, saved_record, shown, Books};

use log_lines::faults::Fault;
use page::Page;
use refusal::Refusal;
use run_log::{Job, Log, Note, end};
use sheet::csv::csv;
use sheet::table::table;
use tally::tallies::{Answer, Tally};
use zones::reading::Zone;

// ---- beginning
// Whether a booking may begin: in the zone that the tally was kept in, on a tally.
#[derive(Clone, Copy)]
pub enum Start {
    Ready,
    OtherZone,
    Refused(Refusal),
}

// What was found, and the job. Where the tally was refused, it is one on a tally that does not hold.
#[derive(Clone, Copy)]
pub struct Begun {
    pub found: Start,
    pub job: Job,
}

// The job of a tally, before the first line.
fn open_job(tally: Tally) -> Job
    ensures { result ≡ open_job tally }
{
    let noted = [Note {
        line: 0,
        fault: Fault::TooLong,
    }; 20];
    Job {
        log: Log {
            tally,
            lines: 0,
            faults: 0,
            noted,
        },
        len: 0,
        stopped: false,
    }
}

// Whether the zone that is named is the one that the tally was kept in.
#[tactic(auto, using(crate::proofs::BytesLaws::same_slices))]
fn start_in(zone: &[u8], kept: &[u8]) -> Start
    ensures { result ≡ start_in zone.now kept.now }
{
    if zone == kept {
        return Start::Ready;
    }
    Start::OtherZone
}

// A booking by a zone's record on a saved tally, beside which stands the record of the zone that it was kept in.
pub fn begin(zone: &[u8], kept: &[u8], saved: &[u8]) -> Begun
    ensures { (result.found ≡ start_of zone.now kept.now saved.now) × (result.job ≡ open_job (or_else (read_tally saved.now) no_tally)) }
{
    let Answer { check, tally } = Tally::read(saved);
    let found = match check {
        Ok(()) => start_in(zone, kept),
        Err(why) => Start::Refused(why),
    };
    Begun {
        found,
        job: open_job(tally),
    }
}

// ---- what is to be written and shown
pub fn record_of(tally: Tally) -> [u8; 68]
    ensures { result ≡ saved_record tally }
{
    let mut bytes = [0u8; 68];
    tally.save(&mut bytes);
    bytes
}

pub fn page_of(tally: Tally, as_csv: bool) -> Page
    ensures { text_of result ≡ shown as_csv tally }
{
    if as_csv {
        return csv(tally);
    }
    table(tally)
}

// What a booking comes to. Where it stands, the record is to be written and the page to be shown; where it does not, the record is zeros and the page blank.
#[derive(Clone, Copy)]
pub struct Done {
    pub stands: bool,
    pub faults: u64,
    pub noted: [Note; 20],
    pub saved: [u8; 68],
    pub page: Page,
}

// A booking stands where the log came whole, and no line of it was wrong.
fn settled(log: Log, whole: bool, as_csv: bool) -> Done
    ensures { Books as_csv whole log result }
{
    let Log {
        tally,
        faults,
        noted,
        ..
    } = log;
    if whole && faults == 0 {
        return Done {
            stands: true,
            faults,
            noted,
            saved: record_of(tally),
            page: page_of(tally, as_csv),
        };
    }
    Done {
        stands: false,
        faults,
        noted,
        saved: [0; 68],
        page: Page::blank(),
    }
}

// The end of a job. `whole` says whether all of the log was fed.
pub fn finish(zone: Zone, bytes: &[u8], job: Job, whole: bool, as_csv: bool) -> Done
    ensures { Books as_csv whole (end_of (row_of zone) (state_of job bytes.now)) result }
{
    settled(end(zone, bytes, job), whole, as_csv)
}
