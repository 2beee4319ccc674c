// The remote desktop record (source document 003), 172 bytes, read and written: one active rule of year 0, and two names of 64 raw bytes.
#![tactic(auto)]

ghost use Rattle.std.specs.Prelude.{◌≡◌, ◌+◌, ◌≤◌, length, IfOk};
ghost use Rattle.refusal.specs.Lent.{written, lent_after};
ghost use Rattle.refusal.specs.Results.{outcome_of};
ghost use Rattle.little_endian.specs.Fields.{part};
ghost use Rattle.little_endian.specs.Stored.{stored};
ghost use Rattle.remote_desktop.specs.Steps.{half_bytes};
ghost use Rattle.remote_desktop.specs.RemoteDesktop.{of_remote, remote_rule, read_remote_desktop, standard_name, daylight_name, remote_bytes, write_remote_desktop};

use little_endian::fields::{Field, put_bytes};
use records::layout::{date_at, put_date};
use refusal::Refusal;
use zone::dates::SystemTime;
use zone::rules::{Rule, check_dates, check_rule, normal_rule};

// What a record holds.
#[derive(Clone, Copy)]
pub struct RemoteDesktop {
    pub rule: Rule,
    pub standard_name: [u8; 64],
    pub daylight_name: [u8; 64],
}

// 64 bytes from `at`, by value.
fn name_at(s: &[u8], at: usize) -> [u8; 64]
    requires { at + 64 ≤ length s.now }
    ensures { result ≡ part s.now at 64 }
{
    let mut n = [0u8; 64];
    let end = at + 64;
    put_bytes(&mut n, 0, &s[at..end]);
    n
}

fn remote_rule(s: &[u8]) -> Rule
    requires { 172 ≤ length s.now }
    ensures { result ≡ remote_rule s.now }
{
    let bias = i32::read(s, 0);
    let standard_bias = i32::read(s, 84);
    let daylight_bias = i32::read(s, 168);
    let standard_date = date_at(s, 68);
    let daylight_date = date_at(s, 152);
    Rule {
        year: 0,
        active: true,
        bias,
        standard_bias,
        daylight_bias,
        standard_date,
        daylight_date,
    }
}

pub fn read_remote_desktop(bytes: &[u8]) -> Result<RemoteDesktop, Refusal>
    ensures rule { of_remote result ≡ read_remote_desktop bytes.now }
    ensures names { IfOk result (λ read. (read.standard_name ≡ standard_name bytes.now) × (read.daylight_name ≡ daylight_name bytes.now)) }
{
    if bytes.len() != 172 {
        return Err(Refusal::WrongSize);
    }
    let rule = remote_rule(bytes);
    check_dates(rule)?;
    let standard_name = name_at(bytes, 4);
    let daylight_name = name_at(bytes, 88);
    Ok(RemoteDesktop {
        rule: normal_rule(rule),
        standard_name,
        daylight_name,
    })
}

// A name, a date and a bias: the record is a bias and two of these.
fn put_half(out: &mut [u8], at: usize, name: [u8; 64], date: SystemTime, bias: i32)
    requires { at + 84 ≤ length out.old }
    ensures { out.new ≡ stored out.old at (half_bytes name date bias) }
{
    put_bytes(out, at, &name);
    put_date(out, at + 64, date);
    bias.write(out, at + 80);
}

fn put_remote(out: &mut [u8], rule: Rule, standard: [u8; 64], daylight: [u8; 64])
    requires { 172 ≤ length out.old }
    ensures { out.new ≡ stored out.old 0 (remote_bytes rule standard daylight) }
{
    let s = rule.standard_date;
    let d = rule.daylight_date;
    rule.bias.write(out, 0);
    put_half(out, 4, standard, s, rule.standard_bias);
    put_half(out, 88, daylight, d, rule.daylight_bias);
}

// Writes the rule in normal form, and both names.
pub fn write_remote_desktop(
    rule: Rule,
    standard_name: [u8; 64],
    daylight_name: [u8; 64],
    out: &mut [u8],
) -> Result<usize, Refusal>
    ensures result_value { outcome_of result ≡ written (write_remote_desktop rule standard_name daylight_name (length out.old)) }
    ensures out_after { out.new ≡ lent_after (write_remote_desktop rule standard_name daylight_name (length out.old)) out.old }
{
    check_rule(None, rule)?;
    if out.len() < 172 {
        return Err(Refusal::NoRoom);
    }
    put_remote(out, normal_rule(rule), standard_name, daylight_name);
    Ok(172)
}
