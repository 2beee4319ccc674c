// Signed numbers in decimal.
ghost use Rattle.std.specs.Prelude.{◌≡◌};
ghost use Rattle.page.specs.Pages.{text_of, extended};
ghost use Rattle.words.specs.Signed.{signed_text};

use page::Page;

pub fn put_signed(page: Page, number: i64) -> Page
    ensures { text_of result ≡ extended (text_of page) (signed_text number) }
{
    let distance = number.unsigned_abs();
    if number < 0 {
        return page.put(b"-").put_decimal(distance);
    }
    page.put_decimal(distance)
}
