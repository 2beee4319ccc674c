// The zone of a file's text.
ghost use Rattle.std.specs.Prelude.{◌≡◌, ◌≤◌, length, take};
ghost use Rattle.definition.specs.Places.{rules_told};
ghost use Rattle.hex_text.specs.Hex.{record_of};
ghost use Rattle.zones.specs.Zones.{read_as};
ghost use Rattle.booking_job.specs.ZoneText.{kind_of, row_told, choice_for, found_as, zone_found, row_found, zone_in, row_in, bytes_in};

use hex_text::record_of;
use refusal::Refusal;
use zones::reading::{Choice, Kind, Zone, choose, read_zone};

// Why there is no zone: why a reader refused the record, or that no reader accepts it, or more than one.
#[derive(Clone, Copy)]
pub enum ZoneFault {
    Refused(Refusal),
    Nothing,
    Several,
    TooLong,
}

// A zone beside the kind of record that it was read from.
#[derive(Clone, Copy)]
pub struct ZoneRead {
    pub kind: Kind,
    pub zone: Zone,
}

// Which reader a zone record is for: the one that is named, or the one that accepts it.
fn choice_for(bytes: &[u8], asked: Option<Kind>) -> Choice
    ensures { result ≡ choice_for asked bytes.now }
{
    match asked {
        Some(kind) => Choice::One(kind),
        None => choose(bytes),
    }
}

fn read_as(bytes: &[u8], kind: Kind) -> Result<ZoneRead, ZoneFault>
    ensures { (kind_of result ≡ found_as kind (read_as kind bytes.now)) × (row_told result ≡ rules_told (read_as kind bytes.now)) }
{
    let zone = read_zone(bytes, kind).map_err(ZoneFault::Refused)?;
    Ok(ZoneRead { kind, zone })
}

// The zone of a record's bytes.
pub fn zone_of(bytes: &[u8], asked: Option<Kind>) -> Result<ZoneRead, ZoneFault>
    ensures { (kind_of result ≡ zone_found (choice_for asked bytes.now) bytes.now) × (row_told result ≡ row_found (choice_for asked bytes.now) bytes.now) }
{
    match choice_for(bytes, asked) {
        Choice::One(kind) => read_as(bytes, kind),
        Choice::Nothing => Err(ZoneFault::Nothing),
        Choice::Several => Err(ZoneFault::Several),
    }
}

// The zone of a file's text, and how many bytes its record has, at the start of lent ones.
#[derive(Clone, Copy)]
pub struct ZoneText {
    pub found: Result<ZoneRead, ZoneFault>,
    pub len: usize,
}

// The file's text is the record's bytes, or hex text of them. Where they have no room, there is no record.
pub fn zone_in(text: &[u8], asked: Option<Kind>, bytes: &mut [u8]) -> ZoneText
    ensures { (kind_of result.found ≡ zone_in asked (record_of (length bytes.old) text.now)) × (row_told result.found ≡ row_in asked (record_of (length bytes.old) text.now)) × (take result.len bytes.new ≡ bytes_in (record_of (length bytes.old) text.now)) × ((result.len ≤ length bytes.new) × (result.len ≡ length (take result.len bytes.new))) × (length bytes.new ≡ length bytes.old) }
{
    let Some(len) = record_of(text, bytes) else {
        return ZoneText {
            found: Err(ZoneFault::TooLong),
            len: 0,
        };
    };
    ZoneText {
        found: zone_of(&bytes[..len], asked),
        len,
    }
}
