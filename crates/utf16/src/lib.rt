// Names in UTF-16, the low byte of each unit first, and whether one has a lone surrogate, which is half a character: document 02, R-2.
#![tactic(auto)]

ghost use Rattle.std.specs.Prelude.{◌≡◌, ◌+◌, ◌*◌, ◌≤◌, length};
ghost use Rattle.little_endian.specs.Fields.{part};
ghost use Rattle.utf16.specs.Surrogates.{is_high, is_low, has_lone_surrogate};

use little_endian::fields::Field;

fn is_high(unit: u16) -> bool
    ensures { result ≡ is_high unit }
{
    matches!(unit, 0xD800..=0xDBFF)
}

fn is_low(unit: u16) -> bool
    ensures { result ≡ is_low unit }
{
    matches!(unit, 0xDC00..=0xDFFF)
}

// Of the name of so many units at a place. One flag is enough: no surrogate is lone where each unit is a low one exactly if a high one stands directly before it, and the last is no high one.
pub fn has_lone_surrogate(bytes: &[u8], at: usize, units: usize) -> bool
    requires { at + 2 * units ≤ length bytes.now }
    ensures { result ≡ has_lone_surrogate (part bytes.now at (2 * units)) }
{
    let mut after_high = false;
    for i in 0..units {
        let unit = u16::read(bytes, at + 2 * i);
        if is_low(unit) != after_high {
            return true;
        }
        after_high = is_high(unit);
    }
    after_high
}
