// Booking a run, year by year, and in a year from stretch to stretch of one bias.
ghost use Rattle.std.specs.Prelude.{◌≡◌, true, ◌+◌, ◌-◌, ◌<◌, ◌≤◌};
ghost use Rattle.refusal.specs.Results.{outcome_of};
ghost use Rattle.totals.specs.Totals.{sum, grown};
ghost use Rattle.zone.specs.Biases.{in_bias_range};
ghost use Rattle.zone.specs.Ticks.{window_start, window_end};
ghost use Rattle.tally.specs.Booking.{book};
ghost use Rattle.tally.specs.Answers.{of_tally, or_else, answer_of};
ghost use Rattle.tally.specs.Steps.{Walking, weekday_in, asked, run_checks, begun, stepped, walked, booked_on};

use crate::tallies::{Answer, Tally, at, in_span};
use days::ticks::{year_of, year_start};
use in_force::biases::less_bias;
use in_force::rule_bias::{YearBias, bias_at};
use in_force::stretches::next_change;
use refusal::Refusal;
use rows::accepted::Row;
use totals::weekdays::add_stretch;
use zone::rules::Rule;
use zone::ticks::UtcTick;

// A run, from one tick to before another, that is to be booked on a tally.
#[derive(Clone, Copy)]
pub struct Booking {
    pub tally: Tally,
    pub from: UtcTick,
    pub to: UtcTick,
}

// How far a run is booked: the ticks from `at`, which is of that UTC year, to before `to` are left, and the totals have grown by those before.
#[derive(Clone, Copy)]
pub struct Walk {
    pub at: u64,
    pub to: u64,
    pub year: u32,
    pub totals: [u64; 7],
}

pub fn ask(tally: Tally, from: UtcTick, to: UtcTick) -> Booking
    ensures { result ≡ asked tally from to }
{
    Booking { tally, from, to }
}

// ---- the checks
// 18, 15, 17, and 16 where no rule is in force at the run's start.
fn check_run(row: Row, booking: Booking) -> Result<(), Refusal>
    ensures { outcome_of result ≡ run_checks row.entry.rules.now booking }
{
    let tally = booking.tally;
    if !tally.holds().holds {
        return Err(Refusal::BadTally);
    }
    if !(in_span(booking.from) & in_span(booking.to)) {
        return Err(Refusal::OutOfRange);
    }
    let from = at(booking.from);
    if !((from <= at(booking.to)) & (at(tally.end) <= from)) {
        return Err(Refusal::RunOrder);
    }
    match row.rule_in_force(year_of(from)) {
        Some(_) => Ok(()),
        None => Err(Refusal::BeforeFirstRule),
    }
}

// ---- the walk
fn begin(booking: Booking) -> Walk
    ensures { result ≡ begun booking }
{
    let from = at(booking.from);
    let totals = booking.tally.totals;
    Walk {
        at: from,
        to: at(booking.to),
        year: year_of(from),
        totals,
    }
}

// The ticks of one year from one to before another, from stretch to stretch of one bias: as many local ticks, from the one that the first UTC tick shows.
fn add_in_year(k: YearBias, totals: [u64; 7], from: u64, to: u64) -> [u64; 7]
    requires { (in_bias_range k.standard ≡ true) × (in_bias_range k.daylight ≡ true) × (window_start ≤ from) × (from ≤ to) × (to ≤ window_end) × (sum totals + (to - from) ≤ 18446744073709551615) }
    ensures { result ≡ grown 7 (weekday_in k) totals from to }
{
    let mut sums = totals;
    let mut at = from;
    while at < to {
        let end = next_change(k, at, to);
        let local = less_bias(at, bias_at(k, at));
        let grown = add_stretch(sums, local, local + (end - at));
        sums = grown;
        at = end;
    }
    sums
}

// To the end of the year, or of the run if that is sooner.
fn step(k: YearBias, walk: Walk) -> Walk
    requires { (in_bias_range k.standard ≡ true) × (in_bias_range k.daylight ≡ true) × Walking walk × (walk.at < walk.to) }
    ensures { result ≡ stepped k walk }
{
    let at = walk.at;
    let to = walk.to;
    let next_year = walk.year + 1;
    let end = year_start(next_year).min(to);
    let before = walk.totals;
    let totals = add_in_year(k, before, at, end);
    Walk {
        at: end,
        to,
        year: next_year,
        totals,
    }
}

// To the end of the run.
fn walk_on(row: Row, walk: Walk) -> Walk
    requires { Walking walk }
    ensures { result ≡ walked row.entry.rules.now walk }
{
    let mut walk = walk;
    while walk.at < walk.to {
        walk = step(row.year_in_force(walk.year), walk);
    }
    walk
}

// ---- the whole
fn booked(row: &[Rule], booking: Booking) -> Result<Tally, Refusal>
    ensures { outcome_of result ≡ book row.now booking.tally booking.from booking.to }
{
    let accepted = Row::accept(row)?;
    check_run(accepted, booking)?;
    let walk = walk_on(accepted, begin(booking));
    let totals = walk.totals;
    Ok(Tally {
        end: booking.to,
        totals,
    })
}

// The grown tally, or the refusal and the tally as it was.
pub fn book_on(row: &[Rule], booking: Booking) -> Answer
    ensures outcome { result ≡ answer_of (book row.now booking.tally booking.from booking.to) booking.tally }
    ensures steps { result ≡ booked_on row.now booking }
{
    match booked(row, booking) {
        Ok(tally) => Answer {
            check: Ok(()),
            tally,
        },
        Err(why) => Answer {
            check: Err(why),
            tally: booking.tally,
        },
    }
}

impl Tally {
    // Books the run from one tick to before another: the grown tally, or the refusal and the tally as it was.
    pub fn book(self, row: &[Rule], from: UtcTick, to: UtcTick) -> Answer
        ensures { (of_tally result ≡ book row.now self from to) × (result.tally ≡ or_else (book row.now self from to) self) }
    {
        let booking = ask(self, from, to);
        book_on(row, booking)
    }
}
