// The pieces that write a definition: its header with the name, and a rule.
ghost use Rattle.std.specs.Prelude.{cond, ◌≡◌, ◌+◌, ◌≤◌, length};
ghost use Rattle.little_endian.specs.Stored.{stored};
ghost use Rattle.definition.specs.Definition.{rule_bytes};
ghost use Rattle.definition.specs.Steps.{rule_head, header_bytes};

use little_endian::fields::{Field, put_bytes, write_bytes};
use records::layout::put_rule_fields;
use zone::rules::{Rule, normal_rule};

fn flags_of(active: bool) -> u16
    ensures { result ≡ cond active 3 0 }
{
    if active { 3 } else { 0 }
}

// The 22 bytes before a rule's biases: 258 is major 2 and minor 1.
fn put_rule_head(out: &mut [u8], at: usize, flags: u16, year: u16)
    requires { at + 22 ≤ length out.old }
    ensures { out.new ≡ stored out.old at (rule_head flags year) }
{
    u16::write(258, out, at);
    u16::write(62, out, at + 2);
    flags.write(out, at + 4);
    year.write(out, at + 6);
    write_bytes(out, at + 8, 8, 0);
    write_bytes(out, at + 16, 6, 0);
}

// The 66 bytes of a rule, in normal form.
pub fn put_rule(out: &mut [u8], at: usize, rule: Rule)
    requires { at + 66 ≤ length out.old }
    ensures { out.new ≡ stored out.old at (rule_bytes rule) }
{
    let normal = normal_rule(rule);
    put_rule_head(out, at, flags_of(rule.active), rule.year);
    put_rule_fields(out, at + 22, normal);
}

// The bytes of a definition before its rules.
pub fn put_header(out: &mut [u8], name: &[u8], count: u16)
    requires { (length name.now ≤ 520) × (10 + length name.now ≤ length out.old) }
    ensures { out.new ≡ stored out.old 0 (header_bytes name.now count) }
{
    let n = name.len();
    u16::write(258, out, 0);
    u16::write((6 + n) as u16, out, 2);
    u16::write(0x0002, out, 4);
    u16::write((n / 2) as u16, out, 6);
    put_bytes(out, 8, name);
    count.write(out, 8 + n);
}
