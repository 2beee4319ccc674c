// Whether the holder of a lock is gone, by what its file says of it and what this process's own would say.
use crate::holder::{boot_of, command_of, host_of, machine_of, namespace_of, number_of, token_of};
use crate::processes::{is_gone, is_unseen};
use files::lines::is_token;
use time_text::decimal::decimal;

// One at work has a process number.
#[derive(Clone, Copy, Debug, PartialEq, Eq)]
pub enum Holder {
    AtWork(u64),
    Gone,
    Untold,
}

fn is_known_same(a: &[u8], b: &[u8]) -> bool {
    !a.is_empty() && a == b
}

// After another boot of one machine none of its processes is there any more. Two machines may have one host name, or one number where one is a copy of the other.
fn after_boot(holder: &[u8], own: &[u8]) -> Holder {
    if is_known_same(host_of(holder), host_of(own))
        && is_known_same(machine_of(holder), machine_of(own))
    {
        Holder::Gone
    } else {
        Holder::Untold
    }
}

// No process has the number 0. One that is not seen, and is not known to be gone, may be hidden.
fn by_pid(rt: &HostRuntime, holder: &[u8], own: &[u8], number: u64) -> Holder {
    if number == 0 {
        return Holder::Untold;
    }
    let pid = i32::try_from(number).unwrap_or(0);
    if is_gone(
        rt,
        number_of(holder),
        pid,
        command_of(holder),
        number_of(own),
    ) {
        return Holder::Gone;
    }
    if is_unseen(rt, pid) {
        return Holder::Untold;
    }
    Holder::AtWork(number)
}

// Another PID namespace has numbers of its own, which say nothing here.
fn in_boot(rt: &HostRuntime, holder: &[u8], own: &[u8]) -> Holder {
    if !is_known_same(namespace_of(holder), namespace_of(own)) {
        return Holder::Untold;
    }
    let number = decimal(number_of(holder), 2147483647);
    match number {
        Some(value) => by_pid(rt, holder, own, value),
        None => Holder::Untold,
    }
}

fn by_boot(rt: &HostRuntime, holder: &[u8], own: &[u8]) -> Holder {
    if boot_of(holder).is_empty() || boot_of(own).is_empty() {
        return Holder::Untold;
    }
    if boot_of(holder) == boot_of(own) {
        return in_boot(rt, holder, own);
    }
    after_boot(holder, own)
}

// Without evidence a holder is not gone. One boot is one machine's, whatever its name.
pub fn judged(rt: &HostRuntime, holder: &[u8], own: &[u8]) -> Holder {
    if !is_token(token_of(holder)) {
        return Holder::Untold;
    }
    by_boot(rt, holder, own)
}
