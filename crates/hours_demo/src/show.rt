// The sheet: the hours of each weekday, of all of them, and the number of what was refused.
use crate::numbers::{put_at_right, put_two_digits};
use crate::text::put;
use refusal::Refusal;
use sheet::hours::{hours, minutes};
use sheet::total::time_run;
use tally::tallies::Answer;

// A name of 10 places, and hours and minutes.
fn line(name: &[u8], ticks: u64) {
    put(name);
    put_at_right(hours(ticks));
    put(b":");
    put_two_digits(minutes(ticks));
    put(b"\n");
}

fn show_totals(totals: [u64; 7]) {
    line(b"Sunday    ", totals[0]);
    line(b"Monday    ", totals[1]);
    line(b"Tuesday   ", totals[2]);
    line(b"Wednesday ", totals[3]);
    line(b"Thursday  ", totals[4]);
    line(b"Friday    ", totals[5]);
    line(b"Saturday  ", totals[6]);
}

pub fn show_refusal(why: Refusal) {
    put(b"refused   ");
    put_at_right(u64::from(u32::from(why)));
    put(b"\n");
}

pub fn show(answer: Answer) {
    let Answer { check, tally } = answer;
    show_totals(tally.totals);
    line(b"total     ", time_run(tally));
    if let Err(why) = check {
        show_refusal(why);
    }
}
