// A restart.
ghost use Rattle.std.specs.Prelude.{◌≡◌, true};
ghost use Rattle.tally.specs.Tallies.{holds};

use tally::tallies::Tally;

// Saved into bytes, and read back from them: the same tally, if it holds.
pub fn restarted(tally: Tally) -> Tally
    ensures { holds tally ≡ true → result ≡ tally }
{
    let mut bytes = [0; 68];
    tally.save(&mut bytes);
    Tally::read(&bytes).tally
}
