// The sheet as comma separated values.
ghost use Rattle.std.specs.Prelude.{◌≡◌};
ghost use Rattle.page.specs.Pages.{text_of, extended};
ghost use Rattle.sheet.specs.Csv.{numbers_text, line_text, lines_text, csv_text};

use crate::hours::{hours, minutes};
use crate::names::WEEKDAYS;
use crate::total::time_run;
use page::Page;
use page::times::put_time;
use tally::tallies::Tally;

fn put_numbers(page: Page, ticks: u64) -> Page
    ensures { text_of result ≡ extended (text_of page) (numbers_text ticks) }
{
    let page = page.put_decimal(hours(ticks));
    let page = page.put(b",");
    let page = page.put_decimal(minutes(ticks));
    let page = page.put(b",");
    page.put_decimal(ticks)
}

fn put_line(page: Page, end: i64, name: &[u8], ticks: u64) -> Page
    ensures { text_of result ≡ extended (text_of page) (line_text end name.now ticks) }
{
    let page = page.put(name);
    let page = page.put(b",");
    let page = put_numbers(page, ticks);
    let page = page.put(b",");
    let page = put_time(page, end);
    page.put(b"\n")
}

fn put_lines(page: Page, end: i64, totals: [u64; 7]) -> Page
    ensures { text_of result ≡ extended (text_of page) (lines_text end totals) }
{
    WEEKDAYS
        .iter()
        .zip(&totals)
        .fold(page, |page, (name, ticks)| {
            put_line(page, end, name, *ticks)
        })
}

pub fn csv(tally: Tally) -> Page
    ensures { text_of result ≡ csv_text tally }
{
    let totals = tally.totals;
    let end = tally.end;
    let page = Page::blank().put(b"weekday,hours,minutes,ticks,counted_up_to\n");
    let page = put_lines(page, end.0, totals);
    put_line(page, end.0, b"total", time_run(tally))
}
