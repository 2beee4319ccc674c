// The fields that the records share, little-endian, at a place of the bytes.
ghost use Rattle.std.specs.Prelude.{◌≡◌, ◌+◌, ◌≤◌, length};
ghost use Rattle.little_endian.specs.Stored.{stored};
ghost use Rattle.records.specs.Layout.{date_at, date_bytes, rule_at, rule_field_bytes};
ghost use Rattle.records.specs.Steps.{three_biases};

use little_endian::fields::Field;
use zone::dates::SystemTime;
use zone::rules::Rule;

pub fn date_at(s: &[u8], at: usize) -> SystemTime
    requires { at + 16 ≤ length s.now }
    ensures { result ≡ date_at s.now at }
{
    SystemTime {
        year: u16::read(s, at),
        month: u16::read(s, at + 2),
        weekday: u16::read(s, at + 4),
        day: u16::read(s, at + 6),
        hour: u16::read(s, at + 8),
        minute: u16::read(s, at + 10),
        second: u16::read(s, at + 12),
        millisecond: u16::read(s, at + 14),
    }
}

// The biases and dates of 44 bytes, as a rule of a year.
pub fn rule_at(s: &[u8], at: usize, year: u16, active: bool) -> Rule
    requires { at + 44 ≤ length s.now }
    ensures { result ≡ rule_at s.now at year active }
{
    let bias = i32::read(s, at);
    let standard_bias = i32::read(s, at + 4);
    let daylight_bias = i32::read(s, at + 8);
    let standard_date = date_at(s, at + 12);
    let daylight_date = date_at(s, at + 28);
    Rule {
        year,
        active,
        bias,
        standard_bias,
        daylight_bias,
        standard_date,
        daylight_date,
    }
}

pub fn put_date(out: &mut [u8], at: usize, d: SystemTime)
    requires { at + 16 ≤ length out.old }
    ensures { out.new ≡ stored out.old at (date_bytes d) }
{
    d.year.write(out, at);
    d.month.write(out, at + 2);
    d.weekday.write(out, at + 4);
    d.day.write(out, at + 6);
    d.hour.write(out, at + 8);
    d.minute.write(out, at + 10);
    d.second.write(out, at + 12);
    d.millisecond.write(out, at + 14);
}

fn put_biases(out: &mut [u8], at: usize, a: i32, b: i32, c: i32)
    requires { at + 12 ≤ length out.old }
    ensures { out.new ≡ stored out.old at (three_biases a b c) }
{
    a.write(out, at);
    b.write(out, at + 4);
    c.write(out, at + 8);
}

// The 44 bytes of a rule's biases and dates.
pub fn put_rule_fields(out: &mut [u8], at: usize, rule: Rule)
    requires { at + 44 ≤ length out.old }
    ensures { out.new ≡ stored out.old at (rule_field_bytes rule) }
{
    put_biases(out, at, rule.bias, rule.standard_bias, rule.daylight_bias);
    put_date(out, at + 12, rule.standard_date);
    put_date(out, at + 28, rule.daylight_date);
}
