// Ticks as hours and minutes, rounded down.
ghost use Rattle.std.specs.Prelude.{◌≡◌};
ghost use Rattle.sheet.specs.Hours.{hours_of, minutes_of};

pub fn hours(ticks: u64) -> u64
    ensures { result ≡ hours_of ticks }
{
    ticks / 36000000000
}

// The minutes after the last whole hour.
pub fn minutes(ticks: u64) -> u64
    ensures { result ≡ minutes_of ticks }
{
    ticks % 36000000000 / 600000000
}
