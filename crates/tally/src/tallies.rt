// Tallies: document 01's word for seven totals and the end of the last run.
ghost use Rattle.std.specs.Prelude.{◌≡◌, leb};
ghost use Rattle.totals.specs.Totals.{sum};
ghost use Rattle.tally.specs.Tallies.{fresh, at, in_span};
ghost use Rattle.tally.specs.Answers.{held_of};

use refusal::Refusal;
use zone::ticks::UtcTick;

// Totals in ticks for each local weekday, from Sunday, and the end of the last run.
#[repr(C)]
#[derive(Clone, Copy)]
pub struct Tally {
    pub end: UtcTick,
    pub totals: [u64; 7],
}

// Whether a tally holds, and the tally as it was: every call on a tally hands it back, by the form that document 01 names.
#[derive(Clone, Copy)]
pub struct Held {
    pub holds: bool,
    pub tally: Tally,
}

// A tally beside what was said of the call that hands it back, on a refusal too, by the same form.
#[derive(Clone, Copy)]
pub struct Answer {
    pub check: Result<(), Refusal>,
    pub tally: Tally,
}

// A signed tick as a number; a negative one counts as 0, which lies before the window too.
pub fn at(tick: UtcTick) -> u64
    ensures { result ≡ at tick }
{
    let ticks = tick.0;
    if ticks < 0 {
        return 0;
    }
    ticks as u64
}

// From the window's start to its end, both included: a run's ends, and a tally's, may lie there.
pub fn in_span(tick: UtcTick) -> bool
    ensures { result ≡ in_span tick }
{
    let ticks = at(tick);
    if ticks < 315360000000000 {
        return false;
    }
    ticks <= 9223149888000000000
}

// Whether the totals add up to no more than a number. Each is taken off what is left, so that no sum can wrap.
fn fit(totals: [u64; 7], most: u64) -> bool
    ensures { result ≡ leb (sum totals) most }
{
    let mut left = most;
    for total in totals {
        if left < total {
            return false;
        }
        left -= total;
    }
    true
}

impl Tally {
    // Zeros, and the window's start.
    pub fn fresh() -> Tally
        ensures { result ≡ fresh }
    {
        Tally {
            end: UtcTick(315360000000000),
            totals: [0; 7],
        }
    }

    pub fn holds(self) -> Held
        ensures { result ≡ held_of self }
    {
        let end = self.end;
        if !in_span(end) {
            return Held {
                holds: false,
                tally: self,
            };
        }
        let totals = self.totals;
        let holds = fit(totals, at(end) - 315360000000000);
        Held { holds, tally: self }
    }
}
