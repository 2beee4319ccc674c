// The bytes of tally files: a new one, the sheet of one, and going back to an older one.
ghost use Rattle.std.specs.Prelude.{◌≡◌};
ghost use Rattle.refusal.specs.Results.{outcome_of};
ghost use Rattle.tally.specs.Tallies.{fresh};
ghost use Rattle.tally.specs.Saved.{read_tally};
ghost use Rattle.zones.specs.Zones.{verdict};
ghost use Rattle.booking_job.specs.Booked.{saved_record};
ghost use Rattle.booking_job.specs.Tallies.{text_told, sheet_text, undo_in, undo_of};

use crate::booking::{page_of, record_of};
use page::Page;
use refusal::Refusal;
use tally::tallies::{Answer, Tally};

// The record of a tally on which nothing is booked.
pub fn new_record() -> [u8; 68]
    ensures { result ≡ saved_record fresh }
{
    record_of(Tally::fresh())
}

// The sheet of a saved tally.
pub fn sheet_of(saved: &[u8], as_csv: bool) -> Result<Page, Refusal>
    ensures { (verdict (outcome_of result) ≡ verdict (read_tally saved.now)) × (text_told result ≡ sheet_text as_csv (read_tally saved.now)) }
{
    let Answer { check, tally } = Tally::read(saved);
    check?;
    Ok(page_of(tally, as_csv))
}

// Whether the tally from before the last booking may take the tally's place.
#[derive(Clone, Copy)]
pub enum Undo {
    Back,
    Same,
    Refused(Refusal),
}

#[tactic(auto, using(crate::proofs::BytesLaws::same_slices))]
fn undo_in(old: &[u8], saved: &[u8]) -> Undo
    ensures { result ≡ undo_in old.now saved.now }
{
    if old == saved {
        return Undo::Same;
    }
    Undo::Back
}

// The older one has to be a tally, and another one than the one that is saved.
pub fn undo_of(old: &[u8], saved: &[u8]) -> Undo
    ensures { result ≡ undo_of old.now saved.now }
{
    match Tally::read(old).check {
        Ok(()) => undo_in(old, saved),
        Err(why) => Undo::Refused(why),
    }
}
