// All the time run: the ticks are summed, and not the rounded hours.
ghost use Rattle.std.specs.Prelude.{◌≡◌};
ghost use Rattle.sheet.specs.Hours.{time_run};

use tally::tallies::Tally;

// The totals of a tally that does not hold may not even add up: it has run for no time.
pub fn time_run(tally: Tally) -> u64
    ensures { result ≡ time_run tally }
{
    if !tally.holds().holds {
        return 0;
    }
    tally.totals.iter().sum()
}
