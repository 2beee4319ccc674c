// Numbers in decimal digits.
ghost use Rattle.std.specs.Prelude.{◌≡◌, ◌+◌, ◌*◌};
ghost use Rattle.time_text.specs.Decimal.{is_digit, decimal_of};
ghost use Rattle.time_text.specs.Steps.{up_to, next_value};

pub fn is_digit(byte: u8) -> bool
    ensures { result ≡ is_digit byte }
{
    byte.is_ascii_digit()
}

// A number and one digit more, where that is not above the limit.
fn up_to(most: u64, value: u64, digit: u64) -> Option<u64>
    ensures { result ≡ up_to most (value * 10 + digit) }
{
    let number = value.checked_mul(10)?.checked_add(digit)?;
    if most < number {
        return None;
    }
    Some(number)
}

fn next_value(most: u64, value: u64, byte: u8) -> Option<u64>
    ensures { result ≡ next_value most value byte }
{
    if !is_digit(byte) {
        return None;
    }
    up_to(most, value, u64::from(byte - b'0'))
}

// The number that a text of digits writes, up to a limit.
pub fn decimal(s: &[u8], most: u64) -> Option<u64>
    ensures { result ≡ decimal_of s.now most }
{
    if s.is_empty() {
        return None;
    }
    let mut value: u64 = 0;
    for byte in s {
        value = next_value(most, value, *byte)?;
    }
    Some(value)
}
