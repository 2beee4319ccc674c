// The header of a definition, field by field, as the bytes come.
ghost use Rattle.std.specs.Prelude.{◌≡◌};
ghost use Rattle.refusal.specs.Results.{outcome_of};
ghost use Rattle.calendar.specs.Ranges.{within};
ghost use Rattle.definition.specs.Definition.{size_ok, read_header};

use little_endian::fields::Field;
use refusal::Refusal;
use utf16::has_lone_surrogate;

// The minor, the stated size, the name's length in 16-bit units and the number of rules that follow.
#[derive(Clone, Copy)]
pub struct Header {
    pub minor: u8,
    pub size: usize,
    pub units: usize,
    pub count: usize,
}

pub fn is_name_length(units: usize) -> bool
    ensures { result ≡ within 0 260 units }
{
    matches!(units, 0..=260)
}

pub fn is_rule_count(count: usize) -> bool
    ensures { result ≡ within 1 1024 count }
{
    matches!(count, 1..=1024)
}

// With minor 1 a stated size is exact; with another it may be greater.
pub fn size_ok(minor: u8, stated: usize, size: usize) -> bool
    ensures { result ≡ size_ok minor stated size }
{
    match minor {
        1 => stated == size,
        _ => size <= stated,
    }
}

pub fn read_header(bytes: &[u8]) -> Result<Header, Refusal>
    ensures { outcome_of result ≡ read_header bytes.now }
{
    if bytes.len() < 1 {
        return Err(Refusal::PastTheBytes);
    }
    if bytes[0] != 2 {
        return Err(Refusal::HeaderMajor);
    }
    if bytes.len() < 6 {
        return Err(Refusal::PastTheBytes);
    }
    let flags = u16::read(bytes, 4);
    if flags != 0x0002 {
        return Err(Refusal::HeaderFlags);
    }
    if bytes.len() < 8 {
        return Err(Refusal::PastTheBytes);
    }
    let units = u16::read(bytes, 6) as usize;
    if !is_name_length(units) {
        return Err(Refusal::NameTooLong);
    }
    if bytes.len() < 8 + 2 * units {
        return Err(Refusal::PastTheBytes);
    }
    if has_lone_surrogate(bytes, 8, units) {
        return Err(Refusal::LoneSurrogate);
    }
    let minor = bytes[1];
    let size = u16::read(bytes, 2) as usize;
    if !size_ok(minor, size, 6 + 2 * units) {
        return Err(Refusal::WrongSize);
    }
    if bytes.len() < 8 + 2 * units + 2 {
        return Err(Refusal::PastTheBytes);
    }
    let count = u16::read(bytes, 8 + 2 * units) as usize;
    if !is_rule_count(count) {
        return Err(Refusal::RuleCount);
    }
    if bytes.len() < 4 + size {
        return Err(Refusal::PastTheBytes);
    }
    Ok(Header {
        minor,
        size,
        units,
        count,
    })
}
