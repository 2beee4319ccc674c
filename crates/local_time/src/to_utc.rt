// Local time to UTC.
ghost use Rattle.std.specs.Prelude.{◌≡◌, ◌≤◌, map};
ghost use Rattle.days.specs.Counting.{among};
ghost use Rattle.zone.specs.Ticks.{window_start, window_end, utc_tick};
ghost use Rattle.in_force.specs.Shown.{Inside, ticks_of};
ghost use Rattle.local_time.specs.Answers.{of_utc};
ghost use Rattle.local_time.specs.LocalTime.{shows, local_to_utc};

use crate::doors::{local_count, utc_tick};
use days::ticks::{day_in_year, year_of};
use in_force::shown::{UpToFour, day_before, shown_ticks, ticks_within};
use refusal::Refusal;
use rows::accepted::Row;
use zone::rules::Rule;
use zone::ticks::{LocalTick, UtcTick};

fn as_utc(ticks: UpToFour<u64>) -> UpToFour<UtcTick>
    requires { Inside (ticks_of ticks) }
    ensures { ticks_of result ≡ map utc_tick (ticks_of ticks) }
{
    match ticks {
        UpToFour::None => UpToFour::None,
        UpToFour::One(a) => UpToFour::One(utc_tick(a)),
        UpToFour::Two(a, b) => UpToFour::Two(utc_tick(a), utc_tick(b)),
        UpToFour::Three(a, b, c) => UpToFour::Three(utc_tick(a), utc_tick(b), utc_tick(c)),
        UpToFour::Four(a, b, c, d) => {
            UpToFour::Four(utc_tick(a), utc_tick(b), utc_tick(c), utc_tick(d))
        }
    }
}

// All ticks that show a local tick lie in the UTC years of a day before it and of a day after it: a bias is at most a day.
// Where these are one year, which the year's last days leave open, its rule alone counts. In a leap year one day more could be told so.
fn shown_in(row: Row, tick: u64) -> UpToFour<u64>
    requires { tick ≤ 9223372036854775807 }
    ensures { ticks_of result ≡ among (shows row.entry.rules.now tick) window_start window_end }
{
    let before = day_before(tick);
    let year = year_of(before);
    let first = row.rule_in_force(year);
    if day_in_year(before) <= 362 {
        return match first {
            Some(rule) => ticks_within(rule, year, tick),
            None => UpToFour::None,
        };
    }
    let later = year_of(tick + 864000000000);
    shown_ticks(first, row.rule_in_force(later), tick)
}

// The UTC ticks that show a local tick, earliest first.
pub fn local_to_utc(row: &[Rule], local: LocalTick) -> Result<UpToFour<UtcTick>, Refusal>
    ensures { of_utc result ≡ local_to_utc row.now local }
{
    let accepted = Row::accept(row)?;
    let tick = local_count(local)?;
    Ok(as_utc(shown_in(accepted, tick)))
}
