// The program's arguments, from place 1 on: at place 0 stands the program's name.
ghost use Rattle.std.specs.Prelude.{◌≤◌, length};

use std::env::{Env, FillError};

// An argument, put in lent bytes. Nothing where there is none, or where it is too long.
pub fn argument<'a>(rt: &HostRuntime, place: usize, out: &'a mut [u8]) -> &'a [u8]
    ensures { length result.now ≤ length out.old }
{
    match rt.arg(place, out) {
        Ok(len) => &out[..len],
        Err(_) => &[],
    }
}

// Whether there is an argument at a place, however long it is.
fn is_present(rt: &HostRuntime, place: usize) -> bool {
    let mut one = [0];
    !matches!(rt.arg(place, &mut one), Err(FillError::NotPresent))
}

// How many arguments there are, the program's name among them.
pub fn argument_count(rt: &HostRuntime) -> usize {
    (0..usize::MAX)
        .find(|place| !is_present(rt, *place))
        .unwrap_or(usize::MAX)
}
