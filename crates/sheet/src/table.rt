// The sheet as a table. The Sunday row comes first: it is what is signed for.
ghost use Rattle.std.specs.Prelude.{◌≡◌};
ghost use Rattle.page.specs.Pages.{text_of, extended};
ghost use Rattle.sheet.specs.Table.{row_text, rows_text, end_text, table_text};

use crate::hours::{hours, minutes};
use crate::names::WEEKDAYS;
use crate::total::time_run;
use page::Page;
use page::times::put_time;
use tally::tallies::Tally;

fn put_row(page: Page, name: &[u8], ticks: u64) -> Page
    ensures { text_of result ≡ extended (text_of page) (row_text name.now ticks) }
{
    let page = page.put_left(name, 10);
    let page = page.put_right(hours(ticks), 6);
    let page = page.put(b":");
    let page = page.put_digits(minutes(ticks), 2);
    page.put(b"\n")
}

fn put_rows(page: Page, totals: [u64; 7]) -> Page
    ensures { text_of result ≡ extended (text_of page) (rows_text totals) }
{
    WEEKDAYS
        .iter()
        .zip(&totals)
        .fold(page, |page, (name, ticks)| put_row(page, name, *ticks))
}

// The tally's end, which is UTC.
fn put_end(page: Page, end: i64) -> Page
    ensures { text_of result ≡ extended (text_of page) (end_text end) }
{
    let page = page.put(b"counted up to ");
    let page = put_time(page, end);
    page.put(b"\n")
}

pub fn table(tally: Tally) -> Page
    ensures { text_of result ≡ table_text tally }
{
    let totals = tally.totals;
    let end = tally.end;
    let page = put_rows(Page::blank(), totals);
    let page = put_row(page, b"total", time_run(tally));
    put_end(page, end.0)
}
