// The calls in a zone by value: its rules are lent as a row.
ghost use Rattle.std.specs.Prelude.{◌≡◌};
ghost use Rattle.refusal.specs.Results.{outcome_of};
ghost use Rattle.local_time.specs.LocalTime.{utc_to_local, local_to_utc};
ghost use Rattle.local_time.specs.Answers.{of_utc};
ghost use Rattle.tally.specs.Booking.{book};
ghost use Rattle.tally.specs.Answers.{of_tally, or_else};
ghost use Rattle.zones.specs.Zones.{row_of};

use crate::reading::Zone;
use in_force::shown::UpToFour;
use local_time::to_local::utc_to_local;
use local_time::to_utc::local_to_utc;
use refusal::Refusal;
use tally::tallies::{Answer, Tally};
use zone::rules::Rule;
use zone::ticks::{LocalTick, UtcTick};

fn row(zone: &Zone) -> &[Rule]
    ensures { result.now ≡ row_of zone.now }
{
    &zone.rules[..zone.count.min(1024)]
}

// As document 01 has it: the grown tally, or the refusal and the tally as it was.
pub fn book(zone: Zone, tally: Tally, from: UtcTick, to: UtcTick) -> Answer
    ensures { (of_tally result ≡ book (row_of zone) tally from to) × (result.tally ≡ or_else (book (row_of zone) tally from to) tally) }
{
    tally.book(row(&zone), from, to)
}

pub fn to_local(zone: Zone, utc: UtcTick) -> Result<LocalTick, Refusal>
    ensures { outcome_of result ≡ utc_to_local (row_of zone) utc }
{
    utc_to_local(row(&zone), utc)
}

pub fn to_utc(zone: Zone, local: LocalTick) -> Result<UpToFour<UtcTick>, Refusal>
    ensures { of_utc result ≡ local_to_utc (row_of zone) local }
{
    local_to_utc(row(&zone), local)
}
