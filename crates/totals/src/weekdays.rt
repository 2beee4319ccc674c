// Totals of local ticks by weekday, from Sunday.
ghost use Rattle.std.specs.Prelude.{◌≡◌, ◌+◌, ◌-◌, ◌*◌, ◌%◌, ◌<◌, ◌≤◌, get_or};
ghost use Rattle.days.specs.Ticks.{weekday_of};
ghost use Rattle.totals.specs.Totals.{table, sum, grown};

fn next_weekday(weekday: usize) -> usize
    requires { weekday < 7 }
    ensures { result ≡ (weekday + 1) % 7 }
{
    if weekday == 6 { 0 } else { weekday + 1 }
}

// So many ticks more in each total.
fn add_to_each(totals: [u64; 7], ticks: u64) -> [u64; 7]
    requires { sum totals + 7 * ticks ≤ 18446744073709551615 }
    ensures { result ≡ table 7 (λ v. get_or totals v 0 + ticks) }
{
    let mut sums = totals;
    for total in &mut sums {
        *total += ticks;
    }
    sums
}

// The ticks from one to before another, day by day.
fn add_days(totals: [u64; 7], from: u64, to: u64) -> [u64; 7]
    requires { (from ≤ to) × (to ≤ 18000000000000000000) × (sum totals + (to - from) ≤ 18446744073709551615) }
    ensures { result ≡ grown 7 weekday_of totals from to }
{
    let day = from / 864000000000;
    let mut sums = totals;
    let mut x = from;
    let mut weekday = ((day + 1) % 7) as usize;
    for midnight in ((day + 1) * 864000000000..to).step_by(864000000000) {
        sums[weekday] += midnight - x;
        x = midnight;
        weekday = next_weekday(weekday);
    }
    sums[weekday] += to - x;
    sums
}

// The same with whole weeks at once: each adds a day to every total.
fn add_weeks(totals: [u64; 7], from: u64, to: u64) -> [u64; 7]
    requires { (from ≤ to) × (to ≤ 18000000000000000000) × (sum totals + (to - from) ≤ 18446744073709551615) }
    ensures { result ≡ grown 7 weekday_of totals from to }
{
    let weeks = (to - from) / 6048000000000;
    let sums = add_to_each(totals, weeks * 864000000000);
    add_days(sums, from + weeks * 6048000000000, to)
}

// The same, where what is shorter than a week asks for no division by weeks.
pub fn add_stretch(totals: [u64; 7], from: u64, to: u64) -> [u64; 7]
    requires { (from ≤ to) × (to ≤ 18000000000000000000) × (sum totals + (to - from) ≤ 18446744073709551615) }
    ensures { result ≡ grown 7 weekday_of totals from to }
{
    if to - from < 6048000000000 {
        return add_days(totals, from, to);
    }
    add_weeks(totals, from, to)
}
