// The week's runs, from Monday 2023-10-23 to Monday 2023-10-30, in which zone P goes back to standard time.
ghost use Rattle.std.specs.Prelude.{◌≡◌};
ghost use Rattle.tally.specs.Booking.{book};
ghost use Rattle.tally.specs.Answers.{or_else};

use crate::bookings::restarted;
use calendar::fields::{TimeFields, fields_to_time};
use calendar::revisions::REVISION_1_2;
use tally::tallies::{Answer, Tally};
use zone::rules::Rule;
use zone::ticks::UtcTick;

// A minute of October 2023, in UTC. All of them have a tick, and one that had none would be refused by every booking.
fn at(day: i16, hour: i16, minute: i16) -> UtcTick {
    let fields = TimeFields {
        year: 2023,
        month: 10,
        day,
        hour,
        minute,
        second: 0,
        milliseconds: 0,
        weekday: 0,
    };
    UtcTick(fields_to_time(REVISION_1_2, fields).unwrap_or(-1))
}

fn with_run(rule: [Rule; 1], tally: Tally, from: UtcTick, to: UtcTick) -> Tally
    ensures { result ≡ or_else (book rule tally from to) tally }
{
    tally.book(&rule, from, to).tally
}

fn before_the_restart(rule: [Rule; 1], tally: Tally) -> Tally {
    let tally = with_run(rule, tally, at(23, 4, 0), at(23, 12, 0));
    let tally = with_run(rule, tally, at(23, 20, 0), at(24, 4, 30));
    with_run(rule, tally, at(25, 5, 15), at(25, 17, 0))
}

fn after_the_restart(rule: [Rule; 1], tally: Tally) -> Tally {
    let tally = with_run(rule, tally, at(27, 18, 0), at(28, 2, 0));
    with_run(rule, tally, at(28, 12, 0), at(30, 5, 0))
}

// The tally of the week, beside the refusal of a run that starts before the last one ended.
pub fn booked(rule: [Rule; 1]) -> Answer {
    let tally = before_the_restart(rule, Tally::fresh());
    let tally = restarted(tally);
    let tally = after_the_restart(rule, tally);
    tally.book(&rule, at(28, 0, 0), at(28, 1, 0))
}
