// Times as text, as 2023-10-30T05:00:00.
ghost use Rattle.std.specs.Prelude.{◌≡◌, ◌%◌};
ghost use Rattle.days.specs.Ticks.{second};
ghost use Rattle.calendar.specs.Fields.{fields_of};
ghost use Rattle.page.specs.Pages.{text_of, extended};
ghost use Rattle.page.specs.Times.{year_text, date_text, hour_text, fraction_text, clock_text, clock_shown, time_shown};

use crate::Page;
use calendar::fields::{TimeFields, time_to_fields};
use calendar::revisions::REVISION_1_2;
use calendar::signed::part;

fn put_year(page: Page, year: u32) -> Page
    ensures { text_of result ≡ extended (text_of page) (year_text year) }
{
    if 9999 < year {
        return page.put_digits(year as u64, 5);
    }
    page.put_digits(year as u64, 4)
}

fn put_date(page: Page, year: u32, month: u32, day: u32) -> Page
    ensures { text_of result ≡ extended (text_of page) (date_text year month day) }
{
    let page = put_year(page, year);
    let page = page.put(b"-");
    let page = page.put_digits(month as u64, 2);
    let page = page.put(b"-");
    page.put_digits(day as u64, 2)
}

fn put_hour(page: Page, hour: u32, minute: u32, second: u32) -> Page
    ensures { text_of result ≡ extended (text_of page) (hour_text hour minute second) }
{
    let page = page.put_digits(hour as u64, 2);
    let page = page.put(b":");
    let page = page.put_digits(minute as u64, 2);
    let page = page.put(b":");
    page.put_digits(second as u64, 2)
}

fn put_fraction(page: Page, ticks: u64) -> Page
    ensures { text_of result ≡ extended (text_of page) (fraction_text ticks) }
{
    if ticks == 0 {
        return page.put(b"");
    }
    let page = page.put(b".");
    page.put_digits(ticks, 7)
}

fn put_fields(page: Page, fields: TimeFields, tick: u64) -> Page
    requires { fields ≡ fields_of tick }
    ensures { text_of result ≡ extended (text_of page) (clock_text tick) }
{
    let page = put_date(
        page,
        part(fields.year),
        part(fields.month),
        part(fields.day),
    );
    let page = page.put(b"T");
    let page = put_hour(
        page,
        part(fields.hour),
        part(fields.minute),
        part(fields.second),
    );
    put_fraction(page, tick % 10000000)
}

// A TIME as a clock shows it, and `-` for a negative one, which has no date.
pub fn put_clock(page: Page, time: i64) -> Page
    ensures { text_of result ≡ extended (text_of page) (clock_shown time) }
{
    match time_to_fields(REVISION_1_2, time) {
        Ok(fields) => put_fields(page, fields, time as u64),
        Err(_) => page.put(b"-"),
    }
}

// The same in UTC, with a Z.
pub fn put_time(page: Page, time: i64) -> Page
    ensures { text_of result ≡ extended (text_of page) (time_shown time) }
{
    let page = put_clock(page, time);
    if time < 0 {
        return page;
    }
    page.put(b"Z")
}
