// One rule of a definition: kept, skipped or refused.
ghost use Rattle.std.specs.Prelude.{◌≡◌, ◌+◌, ◌≤◌, eqb, length};
ghost use Rattle.little_endian.specs.Fields.{unsigned_at};
ghost use Rattle.definition.specs.Answers.{of_one};
ghost use Rattle.definition.specs.Definition.{is_active, bits_agree, rule_in, read_rule, read_one};

use crate::header::size_ok;
use little_endian::fields::{Field, read_bytes};
use records::layout::rule_at;
use refusal::Refusal;
use zone::rules::{Rule, check_rule, normal_rule};

// A rule in normal form, whether its two flag bits agree, and the place after it.
#[derive(Clone, Copy)]
pub struct KeptRule {
    pub rule: Rule,
    pub agree: bool,
    pub end: usize,
}

// What one rule of the bytes gives; a skipped one gives the place after it.
#[derive(Clone, Copy)]
pub enum One {
    Kept(KeptRule),
    Skipped(usize),
}

// The lowest two flag bits are 3.
fn is_active(flags: u16) -> bool
    ensures { result ≡ is_active flags }
{
    flags % 4 == 3
}

// They are 3 or 0.
fn bits_agree(flags: u16) -> bool
    ensures { result ≡ bits_agree flags }
{
    matches!(flags % 4, 0 | 3)
}

// The 14 bytes that no rule uses are zero.
fn unused_zero(bytes: &[u8], at: usize) -> bool
    requires { at + 14 ≤ length bytes.now }
    ensures { result ≡ eqb (unsigned_at bytes.now at 14) 0 }
{
    let low = read_bytes(bytes, at, 8);
    let high = read_bytes(bytes, at + 8, 6);
    low == 0 && high == 0
}

// The rule whose 66 bytes start at `at`, as they have it.
pub fn rule_in(bytes: &[u8], at: usize) -> Rule
    requires { at + 66 ≤ length bytes.now }
    ensures { result ≡ rule_in bytes.now at }
{
    let flags = u16::read(bytes, at + 4);
    let year = u16::read(bytes, at + 6);
    rule_at(bytes, at + 22, year, is_active(flags))
}

// A rule of major 2, whose stated size lies within the bytes.
fn read_rule(
    bytes: &[u8],
    at: usize,
    minor: u8,
    size: usize,
    before: Option<u16>,
) -> Result<One, Refusal>
    requires { at + 4 + size ≤ length bytes.now }
    ensures { of_one result ≡ read_rule bytes.now at minor size before }
{
    if !size_ok(minor, size, 62) {
        return Err(Refusal::WrongSize);
    }
    if !unused_zero(bytes, at + 8) {
        return Err(Refusal::UnusedNotZero);
    }
    let found = rule_in(bytes, at);
    check_rule(before, found)?;
    let rule = normal_rule(found);
    let agree = bits_agree(u16::read(bytes, at + 4));
    let end = at + 4 + size;
    Ok(One::Kept(KeptRule { rule, agree, end }))
}

// The rule at `at`, after a kept rule of the year `before`.
pub fn read_one(bytes: &[u8], at: usize, before: Option<u16>) -> Result<One, Refusal>
    requires { at ≤ length bytes.now }
    ensures { of_one result ≡ read_one bytes.now at before }
{
    if bytes.len() < at + 4 {
        return Err(Refusal::PastTheBytes);
    }
    let size = u16::read(bytes, at + 2) as usize;
    let end = at + 4 + size;
    if bytes.len() < end {
        return Err(Refusal::PastTheBytes);
    }
    if bytes[at] != 2 {
        return Ok(One::Skipped(end));
    }
    read_rule(bytes, at, bytes[at + 1], size, before)
}
