// A zone record in words.
use crate::statuses::Failure;
use console::output::{NotShown, show};
use definition::name::definition_name;
use kept::zone_files::{read_zone_file, record_buffer};
use page::Page;
use remote_desktop::read_remote_desktop;
use words::rules::put_rule;
use words::units::put_units;
use zones::reading::{Kind, Zone};

// A zone with more rules than there is room for is not shown.
fn show_rules(rt: &HostRuntime, zone: &Zone) -> Result<(), NotShown> {
    let rules = zone.rules.get(..zone.count).ok_or(NotShown)?;
    for rule in rules {
        show(rt, put_rule(Page::blank(), *rule))?;
    }
    Ok(())
}

fn put_kind(page: Page, kind: Kind) -> Page {
    match kind {
        Kind::Registry => page.put(b"registry record"),
        Kind::RemoteDesktop => page.put(b"remote desktop record"),
        Kind::Definition => page.put(b"TZDEFINITION"),
    }
}

fn put_count(page: Page, count: usize) -> Page {
    if count == 1 {
        return page.put(b", 1 rule\n");
    }
    page.put(b", ").put_decimal(count as u64).put(b" rules\n")
}

fn show_name(rt: &HostRuntime, what: &[u8], units: &[u8]) -> Result<(), NotShown> {
    if units.is_empty() {
        return Ok(());
    }
    show(rt, put_units(Page::blank().put(what), units).put(b"\n"))
}

fn show_both_names(rt: &HostRuntime, bytes: &[u8]) -> Result<(), NotShown> {
    // The record was read before, so that it has names.
    let Ok(record) = read_remote_desktop(bytes) else {
        return Ok(());
    };
    show_name(rt, b"standard time is called ", &record.standard_name).and(show_name(
        rt,
        b"daylight time is called ",
        &record.daylight_name,
    ))
}

// The names that a record carries.
fn show_names(rt: &HostRuntime, bytes: &[u8], kind: Kind) -> Result<(), NotShown> {
    match kind {
        Kind::Registry => Ok(()),
        Kind::RemoteDesktop => show_both_names(rt, bytes),
        Kind::Definition => show_name(rt, b"called ", definition_name(bytes)),
    }
}

fn show_head(rt: &HostRuntime, kind: Kind, count: usize) -> Result<(), NotShown> {
    show(rt, put_count(put_kind(Page::blank(), kind), count))
}

// The zone of a file, in words. Each part is written, also where one before it could not be.
pub fn show_zone_file(rt: &HostRuntime, name: &[u8], asked: Option<Kind>) -> Result<(), Failure> {
    let mut bytes = record_buffer();
    let file = read_zone_file(rt, name, asked, &mut bytes)?;
    show_head(rt, file.kind, file.zone.count)
        .and(show_names(rt, file.record, file.kind))
        .and(show_rules(rt, &file.zone))?;
    Ok(())
}
