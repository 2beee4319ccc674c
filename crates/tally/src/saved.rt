// The saved record of a tally, 68 bytes: the length 66 of what follows, kind 1, the end, seven totals from Sunday.
ghost use Rattle.std.specs.Prelude.{◌≡◌, ◌+◌, ◌*◌, ◌≤◌, length};
ghost use Rattle.refusal.specs.Outcome.{refused};
ghost use Rattle.refusal.specs.Lent.{written, lent_after};
ghost use Rattle.refusal.specs.Results.{outcome_of};
ghost use Rattle.little_endian.specs.Stored.{stored};
ghost use Rattle.tally.specs.Saved.{total_bytes, save_tally, read_tally, totals_at};
ghost use Rattle.tally.specs.Answers.{of_tally, or_else, no_tally};

use crate::tallies::{Answer, Tally};
use little_endian::fields::Field;
use refusal::Refusal;
use zone::ticks::UtcTick;

// How many bytes were written, and the tally as it was, handed back by the same form.
#[derive(Clone, Copy)]
pub struct Saved {
    pub answer: Result<usize, Refusal>,
    pub tally: Tally,
}

// The totals at their places of a record.
fn put_totals(out: &mut [u8], totals: [u64; 7])
    requires { 68 ≤ length out.old }
    ensures { out.new ≡ stored out.old 12 (total_bytes totals) }
{
    for (i, total) in totals.iter().enumerate() {
        total.write(out, 12 + 8 * i);
    }
}

fn totals_at(s: &[u8]) -> [u64; 7]
    requires { 68 ≤ length s.now }
    ensures { result ≡ totals_at s.now }
{
    std::array::from_fn(|i| u64::read(s, 12 + 8 * i))
}

// A reading that is refused, with the tally that stands beside it.
fn unread(beside: Tally) -> Answer
    ensures { (of_tally result ≡ refused 18) × (result.tally ≡ beside) }
{
    Answer {
        check: Err(Refusal::BadTally),
        tally: beside,
    }
}

impl Tally {
    pub fn save(self, out: &mut [u8]) -> Saved
        ensures { (outcome_of result.answer ≡ written (save_tally self (length out.old))) × (result.tally ≡ self) × (out.new ≡ lent_after (save_tally self (length out.old)) out.old) }
    {
        let held = self.holds();
        if !held.holds {
            return Saved {
                answer: Err(Refusal::BadTally),
                tally: self,
            };
        }
        if out.len() < 68 {
            return Saved {
                answer: Err(Refusal::NoRoom),
                tally: self,
            };
        }
        u16::write(66, out, 0);
        u16::write(1, out, 2);
        let end = self.end;
        end.0.write(out, 4);
        let totals = self.totals;
        put_totals(out, totals);
        Saved {
            answer: Ok(68),
            tally: self,
        }
    }

    pub fn read(bytes: &[u8]) -> Answer
        ensures { (of_tally result ≡ read_tally bytes.now) × (result.tally ≡ or_else (read_tally bytes.now) no_tally) }
    {
        // It doesn't hold, so that nobody goes on with it by mistake, and tells nothing of the bytes.
        let none = Tally {
            end: UtcTick(0),
            totals: [0; 7],
        };
        if bytes.len() != 68 {
            return unread(none);
        }
        if u16::read(bytes, 0) != 66 {
            return unread(none);
        }
        if u16::read(bytes, 2) != 1 {
            return unread(none);
        }
        let end = UtcTick(i64::read(bytes, 4));
        let totals = totals_at(bytes);
        let tally = Tally { end, totals };
        let held = tally.holds();
        if held.holds {
            return Answer {
                check: Ok(()),
                tally,
            };
        }
        unread(none)
    }
}
