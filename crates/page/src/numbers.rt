// Numbers in decimal.
ghost use Rattle.std.specs.Prelude.{◌≡◌, ◌≤◌, min, take};
ghost use Rattle.page.specs.Pages.{text_of, extended};
ghost use Rattle.page.specs.Numbers.{digits_of, places, decimal_text, right_text};

use crate::Page;

// How many digits a number has. No u64 has more than 20. A `while`, since the library's `ilog10` has no answer for 0, which has one.
fn count_places(n: u64) -> usize
    ensures { (result ≡ places n) × (result ≤ 20) }
{
    let mut count = 1;
    let mut rest = n;
    while 10 <= rest {
        rest /= 10;
        count += 1;
    }
    count
}

// The last `width` digits of a number, at the front.
fn spelled(n: u64, width: usize) -> [u8; 20]
    requires { width ≤ 20 }
    ensures { take width result ≡ digits_of width n }
{
    let mut digits = [b'0'; 20];
    let mut rest = n;
    for i in (0..width).rev() {
        digits[i] = 48 + (rest % 10) as u8;
        rest /= 10;
    }
    digits
}

impl Page {
    // The last `width` digits of a number, with zeros in front; a width above 20 counts as 20.
    pub fn put_digits(self, n: u64, width: usize) -> Page
        ensures { text_of result ≡ extended (text_of self) (digits_of (min width 20) n) }
    {
        let most = width.min(20);
        let digits = spelled(n, most);
        self.put(&digits[..most])
    }

    pub fn put_decimal(self, n: u64) -> Page
        ensures { text_of result ≡ extended (text_of self) (decimal_text n) }
    {
        self.put_digits(n, count_places(n))
    }

    // A number at the right of a column of `width` places; one that is longer is shown whole.
    pub fn put_right(self, n: u64, width: usize) -> Page
        ensures { text_of result ≡ extended (text_of self) (right_text width n) }
    {
        let page = self.put_blanks(width.saturating_sub(count_places(n)));
        page.put_decimal(n)
    }
}
