// Zone rules in words.
ghost use Rattle.std.specs.Prelude.{◌≡◌, ◌+ℤ◌};
ghost use Rattle.page.specs.Pages.{text_of, extended};
ghost use Rattle.words.specs.Rules.{bias_text, when_text, seconds_text, switch_text, half_text, biases_text, head_text, rule_text};

use crate::names::{put_month, put_occurrence, put_weekday};
use crate::signed::put_signed;
use page::Page;
use zone::dates::SystemTime;
use zone::rules::Rule;

// UTC = local + bias, in minutes.
fn put_bias(page: Page, bias: i64) -> Page
    ensures { text_of result ≡ extended (text_of page) (bias_text bias) }
{
    put_signed(page.put(b"UTC less local is "), bias).put(b" minutes")
}

// On that day of that year, or on a weekday of every year.
fn put_day(page: Page, date: SystemTime) -> Page
    ensures { text_of result ≡ extended (text_of page) (when_text date) }
{
    if date.year != 0 {
        return page
            .put_digits(date.year as u64, 4)
            .put(b"-")
            .put_digits(date.month as u64, 2)
            .put(b"-")
            .put_digits(date.day as u64, 2);
    }
    let page = put_occurrence(page.put(b"the "), date.day);
    let page = put_weekday(page.put(b" "), date.weekday as u32);
    put_month(page.put(b" of "), date.month)
}

// Where they are not both zero.
fn put_seconds(page: Page, second: u16, millisecond: u16) -> Page
    ensures { text_of result ≡ extended (text_of page) (seconds_text second millisecond) }
{
    if (second == 0) & (millisecond == 0) {
        return page.put(b"");
    }
    page.put(b":")
        .put_digits(second as u64, 2)
        .put(b".")
        .put_digits(millisecond as u64, 3)
}

fn put_date(page: Page, date: SystemTime) -> Page
    ensures { text_of result ≡ extended (text_of page) (switch_text date) }
{
    let page = put_day(page.put(b", from "), date);
    let page = page
        .put(b" ")
        .put_digits(date.hour as u64, 2)
        .put(b":")
        .put_digits(date.minute as u64, 2);
    put_seconds(page, date.second, date.millisecond)
}

fn sum(a: i32, b: i32) -> i64
    ensures { result ≡ a +ℤ b }
{
    a as i64 + b as i64
}

// Standard time, or daylight time: its bias, and from when on.
fn put_half(page: Page, title: &[u8], bias: i64, date: SystemTime) -> Page
    ensures { text_of result ≡ extended (text_of page) (half_text title.now bias date) }
{
    let page = put_bias(page.put(title), bias);
    put_date(page, date).put(b"\n")
}

fn put_biases(page: Page, rule: Rule) -> Page
    ensures { text_of result ≡ extended (text_of page) (biases_text rule) }
{
    let standard = rule.standard_date;
    let daylight = rule.daylight_date;
    if standard.month == 0 {
        return put_bias(page.put(b"  all year: "), rule.bias as i64).put(b"\n");
    }
    let page = put_half(
        page,
        b"  standard time: ",
        sum(rule.bias, rule.standard_bias),
        standard,
    );
    put_half(
        page,
        b"  daylight time: ",
        sum(rule.bias, rule.daylight_bias),
        daylight,
    )
}

fn put_head(page: Page, rule: Rule) -> Page
    ensures { text_of result ≡ extended (text_of page) (head_text rule) }
{
    let page = page
        .put(b"rule from the year ")
        .put_decimal(rule.year as u64)
        .put(b" on");
    if rule.active {
        return page.put(b", active\n");
    }
    page.put(b"\n")
}

// A line for its year and mark, and one for each of its biases.
pub fn put_rule(page: Page, rule: Rule) -> Page
    ensures { text_of result ≡ extended (text_of page) (rule_text rule) }
{
    put_biases(put_head(page, rule), rule)
}
