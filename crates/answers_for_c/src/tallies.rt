// Tallies.
ghost use Rattle.std.specs.Prelude.{◌≡◌};
ghost use Rattle.tally.specs.Answers.{of_tally};
ghost use Rattle.answers_for_c.specs.Tallies.{number_checked, tally_for_c};

use refusal::Refusal;
use tally::tallies::{Answer, Tally};

// Beside a refused booking stands the tally as it was, and beside a refused reading one that does not hold.
// The four bytes that C leaves between the two have a name, so that the answer is copied in whole words of 64 bits.
#[repr(C)]
#[derive(Clone, Copy)]
pub struct TallyForC {
    pub refusal: u32,
    pub padding: u32,
    pub tally: Tally,
}

// The number of a refusal, 0 for none.
fn refusal_of(check: Result<(), Refusal>) -> u32
    ensures { result ≡ number_checked check }
{
    match check {
        Ok(()) => 0,
        Err(why) => u32::from(why),
    }
}

// The end and the totals are handed on one after the other, as they were written: in one piece the processor would wait for both.
impl From<Answer> for TallyForC {
    ghost from_gives = { λ answer told. told ≡ tally_for_c (of_tally answer) answer.tally };

    fn from(answer: Answer) -> TallyForC {
        let check = answer.check;
        let refusal = refusal_of(check);
        let tally = answer.tally;
        let end = tally.end;
        let totals = tally.totals;
        TallyForC {
            refusal,
            padding: 0,
            tally: Tally { end, totals },
        }
    }
}
