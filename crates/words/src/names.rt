// Names of weekdays, months and occurrences.
ghost use Rattle.std.specs.Prelude.{◌≡◌};
ghost use Rattle.ascii.specs.Text.{ascii};
ghost use Rattle.page.specs.Pages.{text_of, extended};
ghost use Rattle.words.specs.Names.{weekday_name, month_name, occurrence_name};

use page::Page;

pub fn put_weekday(page: Page, weekday: u32) -> Page
    ensures { text_of result ≡ extended (text_of page) (ascii (weekday_name weekday)) }
{
    match weekday {
        0 => page.put(b"Sunday"),
        1 => page.put(b"Monday"),
        2 => page.put(b"Tuesday"),
        3 => page.put(b"Wednesday"),
        4 => page.put(b"Thursday"),
        5 => page.put(b"Friday"),
        _ => page.put(b"Saturday"),
    }
}

pub fn put_month(page: Page, month: u16) -> Page
    ensures { text_of result ≡ extended (text_of page) (ascii (month_name month)) }
{
    match month {
        1 => page.put(b"January"),
        2 => page.put(b"February"),
        3 => page.put(b"March"),
        4 => page.put(b"April"),
        5 => page.put(b"May"),
        6 => page.put(b"June"),
        7 => page.put(b"July"),
        8 => page.put(b"August"),
        9 => page.put(b"September"),
        10 => page.put(b"October"),
        11 => page.put(b"November"),
        _ => page.put(b"December"),
    }
}

// Which one in a month. The fifth stands for the last, in months with four, too.
pub fn put_occurrence(page: Page, day: u16) -> Page
    ensures { text_of result ≡ extended (text_of page) (ascii (occurrence_name day)) }
{
    match day {
        1 => page.put(b"first"),
        2 => page.put(b"second"),
        3 => page.put(b"third"),
        4 => page.put(b"fourth"),
        _ => page.put(b"last"),
    }
}
