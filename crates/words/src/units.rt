// Names in 16-bit units, as zone records have them.
ghost use Rattle.std.specs.Prelude.{◌≡◌};
ghost use Rattle.calendar.specs.Ranges.{within};
ghost use Rattle.page.specs.Pages.{text_of, extended};
ghost use Rattle.words.specs.Units.{unit_text, units_text};

use page::Page;

fn is_shown(low: u8) -> bool
    ensures { result ≡ within 32 126 low }
{
    matches!(low, 32..=126)
}

// A character of ASCII is shown, another one as a question mark. Zeros fill a name up.
fn put_unit(page: Page, low: u8, high: u8) -> Page
    ensures { text_of result ≡ extended (text_of page) (unit_text low high) }
{
    if high != 0 {
        return page.put(b"?");
    }
    if low == 0 {
        return page;
    }
    if is_shown(low) {
        return page.put(&[low]);
    }
    page.put(b"?")
}

pub fn put_units(page: Page, units: &[u8]) -> Page
    ensures { text_of result ≡ extended (text_of page) (units_text units.now) }
{
    let mut page = page;
    for unit in units.chunks_exact(2) {
        page = put_unit(page, unit[0], unit[1]);
    }
    page
}
