// A zone read from bytes. The three records are told apart by which reader accepts them.
ghost use Rattle.std.specs.Prelude.{◌≡◌, [], ◌∷◌};
ghost use Rattle.refusal.specs.Results.{outcome_of};
ghost use Rattle.definition.specs.Definition.{read_into};
ghost use Rattle.zones.specs.Zones.{row_of, read_as, of_zone, verdict, choice_of, chosen};

use definition::look::look;
use definition_rows::reading::read_definition;
use records::registry::read_registry;
use refusal::Refusal;
use remote_desktop::read_remote_desktop;
use zone::rules::{Rule, no_rule};

// A zone: its row is the first `count` of the rules. An array, since nothing here is on a heap.
#[derive(Clone, Copy)]
pub struct Zone {
    pub rules: [Rule; 1024],
    pub count: usize,
}

#[derive(Clone, Copy)]
pub enum Kind {
    Registry,
    RemoteDesktop,
    Definition,
}

// What each reader says of some bytes.
#[derive(Clone, Copy)]
pub struct Readers {
    pub registry: Result<(), Refusal>,
    pub remote_desktop: Result<(), Refusal>,
    pub definition: Result<(), Refusal>,
}

// The one reader that accepts the bytes, if it is one.
#[derive(Clone, Copy)]
pub enum Choice {
    One(Kind),
    Nothing,
    Several,
}

// ---- any record
fn of_one_rule(rule: Rule) -> Zone
    ensures { row_of result ≡ rule ∷ [] }
{
    Zone {
        rules: [rule; 1024],
        count: 1,
    }
}

fn read_rules(bytes: &[u8]) -> Result<Zone, Refusal>
    ensures { of_zone result ≡ read_into bytes.now 1024 }
{
    let mut rules = [no_rule(); 1024];
    let count = read_definition(bytes, &mut rules)?;
    Ok(Zone { rules, count })
}

pub fn read_zone(bytes: &[u8], kind: Kind) -> Result<Zone, Refusal>
    ensures { of_zone result ≡ read_as kind bytes.now }
{
    match kind {
        Kind::Registry => read_registry(bytes).map(of_one_rule),
        Kind::RemoteDesktop => read_remote_desktop(bytes).map(|read| of_one_rule(read.rule)),
        Kind::Definition => read_rules(bytes),
    }
}

// ---- which reader
pub fn ask_readers(bytes: &[u8]) -> Readers
    ensures { (outcome_of result.registry ≡ verdict (read_as Kind.Registry bytes.now)) × (outcome_of result.remote_desktop ≡ verdict (read_as Kind.RemoteDesktop bytes.now)) × (outcome_of result.definition ≡ verdict (read_as Kind.Definition bytes.now)) }
{
    Readers {
        registry: read_registry(bytes).map(|_| ()),
        remote_desktop: read_remote_desktop(bytes).map(|_| ()),
        definition: look(bytes, 1024).map(|_| ()),
    }
}

// The one of three that holds, if it is one.
fn choice_of(registry: bool, remote_desktop: bool, definition: bool) -> Choice
    ensures { result ≡ choice_of registry remote_desktop definition }
{
    match (registry, remote_desktop, definition) {
        (true, false, false) => Choice::One(Kind::Registry),
        (false, true, false) => Choice::One(Kind::RemoteDesktop),
        (false, false, true) => Choice::One(Kind::Definition),
        (false, false, false) => Choice::Nothing,
        _ => Choice::Several,
    }
}

pub fn choose(bytes: &[u8]) -> Choice
    ensures { result ≡ chosen bytes.now }
{
    let readers = ask_readers(bytes);
    choice_of(
        readers.registry.is_ok(),
        readers.remote_desktop.is_ok(),
        readers.definition.is_ok(),
    )
}
