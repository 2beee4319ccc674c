// The commands on times: each argument is answered by a line.
use crate::arguments::{argument, argument_count};
use crate::statuses::{Failure, refused};
use calendar::fields::time_to_fields;
use calendar::revisions::REVISION_1_2;
use calendar::signed::part;
use console::messages::complain;
use console::output::show;
use in_force::shown::UpToFour;
use page::Page;
use page::times::{put_clock, put_time};
use time_text::faults::TextFault;
use time_text::times::{local_time, utc_time};
use words::names::put_weekday;
use words::signed::put_signed;
use zone::ticks::{LocalTick, UtcTick};
use zones::calls::{to_local, to_utc};
use zones::reading::Zone;

fn show_line(rt: &HostRuntime, page: Page) -> Result<(), Failure> {
    Ok(show(rt, page.put(b"\n"))?)
}

fn show_fields(rt: &HostRuntime, revision: u32, word: &[u8], time: i64) -> Result<(), Failure> {
    let fields = time_to_fields(revision, time).map_err(|why| refused(word, why))?;
    let page = put_time(Page::blank(), time).put(b" ");
    show_line(rt, put_weekday(page, part(fields.weekday)))
}

fn show_number(rt: &HostRuntime, time: i64) -> Result<(), Failure> {
    show_line(rt, put_signed(Page::blank(), time))
}

fn show_local(rt: &HostRuntime, zone: Zone, word: &[u8], time: i64) -> Result<(), Failure> {
    let local = to_local(zone, UtcTick(time)).map_err(|why| refused(word, why))?;
    show_line(rt, put_clock(Page::blank(), local.0))
}

fn and_time(page: Page, utc: UtcTick) -> Page {
    put_time(page.put(b" "), utc.0)
}

// Every UTC time that shows a local time, earliest first, on one line.
fn show_utc(rt: &HostRuntime, zone: Zone, word: &[u8], time: i64) -> Result<(), Failure> {
    let page = Page::blank();
    let shown = match to_utc(zone, LocalTick(time)).map_err(|why| refused(word, why))? {
        UpToFour::None => page.put(b"none"),
        UpToFour::One(a) => put_time(page, a.0),
        UpToFour::Two(a, b) => and_time(put_time(page, a.0), b),
        UpToFour::Three(a, b, c) => and_time(and_time(put_time(page, a.0), b), c),
        UpToFour::Four(a, b, c, d) => and_time(and_time(and_time(put_time(page, a.0), b), c), d),
    };
    show_line(rt, shown)
}

// ---- the commands
// The time that a word says. Where it says none, that is said.
fn time_of(word: &[u8], text: Result<i64, TextFault>) -> Result<i64, Failure> {
    text.map_err(|fault| match fault {
        TextFault::Refused(why) => refused(word, why),
        TextFault::NotATime => {
            complain(word, b"not a time");
            Failure::Refused
        }
    })
}

// Answers each argument from a place on. What is wrong with one keeps none of the others from being answered.
fn answer_each<F: Fn(&[u8]) -> Result<(), Failure>>(
    rt: &HostRuntime,
    from: usize,
    answer: F,
) -> Result<(), Failure>
    requires { F.IsAlwaysCallable answer }
{
    let mut all = Ok(());
    for place in from..argument_count(rt) {
        let mut word = io::buffer();
        all = all.and(answer(argument(rt, place, &mut word)));
    }
    all
}

// The date, time and weekday of each time, by a revision of the time paper.
pub fn show_each_fields(rt: &HostRuntime, revision: u32, from: usize) -> Result<(), Failure> {
    answer_each(rt, from, |word| {
        let time = time_of(word, utc_time(revision, word))?;
        show_fields(rt, revision, word, time)
    })
}

// The number of each time.
pub fn show_each_number(rt: &HostRuntime, revision: u32, from: usize) -> Result<(), Failure> {
    answer_each(rt, from, |word| {
        let time = time_of(word, utc_time(revision, word))?;
        show_number(rt, time)
    })
}

// The local time of each UTC time.
pub fn show_each_local(rt: &HostRuntime, zone: Zone, from: usize) -> Result<(), Failure> {
    answer_each(rt, from, |word| {
        let time = time_of(word, utc_time(REVISION_1_2, word))?;
        show_local(rt, zone, word, time)
    })
}

// The UTC times of each local time, which is written without the Z.
pub fn show_each_utc(rt: &HostRuntime, zone: Zone, from: usize) -> Result<(), Failure> {
    answer_each(rt, from, |word| {
        let time = time_of(word, local_time(word))?;
        show_utc(rt, zone, word, time)
    })
}
