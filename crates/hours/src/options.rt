// The options that stand between a command and its files.
use crate::arguments::argument;
use crate::statuses::Failure;
use console::messages::say;
use files::names::is_option;
use time_text::revision::revision_number;
use zones::reading::Kind;

// The options: a kind of zone record and a revision of the time paper where they were named, and the place of the first argument after them.
#[derive(Clone, Copy)]
pub struct Options {
    pub csv: bool,
    pub kind: Option<Kind>,
    pub revision: Option<u32>,
    pub next: usize,
}

// After `--as`.
fn kind_named(word: &[u8]) -> Result<Kind, Failure> {
    match word {
        b"registry" => Ok(Kind::Registry),
        b"remote-desktop" => Ok(Kind::RemoteDesktop),
        b"definition" => Ok(Kind::Definition),
        _ => {
            say(b"hours: --as takes registry, remote-desktop or definition\n");
            Err(Failure::Usage)
        }
    }
}

// One option more, with the word behind it where it takes one. After `--revision` any number is taken here; what is no revision is refused before a time is read.
fn with_option(rt: &HostRuntime, options: Options, word: &[u8]) -> Result<Options, Failure> {
    let behind = options.next.saturating_add(1);
    let past = options.next.saturating_add(2);
    let mut value = io::buffer();
    match word {
        b"--csv" => Ok(Options {
            csv: true,
            next: behind,
            ..options
        }),
        b"--as" => Ok(Options {
            kind: Some(kind_named(argument(rt, behind, &mut value))?),
            next: past,
            ..options
        }),
        b"--revision" => Ok(Options {
            revision: Some(revision_number(argument(rt, behind, &mut value))),
            next: past,
            ..options
        }),
        _ => {
            say(b"hours: no such option: hours --help lists them\n");
            Err(Failure::Usage)
        }
    }
}

// The options from the argument at a place on. There are three, and up to six are taken, so that each may be said again. What is wrong is said.
pub fn options_from(rt: &HostRuntime, place: usize) -> Result<Options, Failure> {
    let mut options = Options {
        csv: false,
        kind: None,
        revision: None,
        next: place,
    };
    for _ in 0..6 {
        let mut word = io::buffer();
        let word = argument(rt, options.next, &mut word);
        if !is_option(word) {
            break;
        }
        options = with_option(rt, options, word)?;
    }
    Ok(options)
}
