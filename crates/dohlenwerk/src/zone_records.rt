// Registry and remote desktop records.
ghost use Rattle.std.specs.Prelude.{◌≡◌, length};
ghost use Rattle.refusal.specs.Lent.{written, lent_after};
ghost use Rattle.records.specs.Registry.{read_registry, write_registry};
ghost use Rattle.remote_desktop.specs.RemoteDesktop.{read_remote_desktop, standard_name, daylight_name, write_remote_desktop};
ghost use Rattle.answers_for_c.specs.ZoneRecords.{rule_for_c, length_for_c, remote_for_c};

use answers_for_c::zone_records::{LengthForC, Name, RemoteDesktopForC, RuleForC};
use records::registry::{read_registry, write_registry};
use remote_desktop::{read_remote_desktop, write_remote_desktop};
use zone::rules::Rule;

#[unsafe(no_mangle)]
pub extern "C" fn dohlenwerk_read_registry(bytes: &[u8]) -> RuleForC
    ensures { result ≡ rule_for_c (read_registry bytes.now) }
{
    RuleForC::from(read_registry(bytes))
}

#[unsafe(no_mangle)]
pub extern "C" fn dohlenwerk_write_registry(rule: Rule, out: &mut [u8]) -> LengthForC
    ensures value { result ≡ length_for_c (written (write_registry rule (length out.old))) }
    ensures out_after { out.new ≡ lent_after (write_registry rule (length out.old)) out.old }
{
    LengthForC::from(write_registry(rule, out))
}

#[unsafe(no_mangle)]
pub extern "C" fn dohlenwerk_read_remote_desktop(bytes: &[u8]) -> RemoteDesktopForC
    ensures { result ≡ remote_for_c (read_remote_desktop bytes.now) (standard_name bytes.now) (daylight_name bytes.now) }
{
    RemoteDesktopForC::from(read_remote_desktop(bytes))
}

#[unsafe(no_mangle)]
pub extern "C" fn dohlenwerk_write_remote_desktop(
    rule: Rule,
    standard_name: Name,
    daylight_name: Name,
    out: &mut [u8],
) -> LengthForC
    ensures value { result ≡ length_for_c (written (write_remote_desktop rule standard_name.bytes daylight_name.bytes (length out.old))) }
    ensures out_after { out.new ≡ lent_after (write_remote_desktop rule standard_name.bytes daylight_name.bytes (length out.old)) out.old }
{
    let standard = standard_name.bytes;
    let daylight = daylight_name.bytes;
    LengthForC::from(write_remote_desktop(rule, standard, daylight, out))
}
