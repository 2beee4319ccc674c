// The rules of a definition, one after another: how many are kept, and how many of them are active.
ghost use Rattle.std.specs.Prelude.{cond, ◌≡◌, ◌+◌, ◌≤◌, ◌<◌, length};
ghost use Rattle.refusal.specs.Lent.{written};
ghost use Rattle.refusal.specs.Results.{outcome_of};
ghost use Rattle.definition.specs.Answers.{kept_one};
ghost use Rattle.definition.specs.Definition.{kept_rules};
ghost use Rattle.definition.specs.Steps.{walk_over, begun, walk_one, walk_rules, finished, walk_body, walk_all};

use crate::header::{Header, read_header};
use crate::rules::{KeptRule, One, read_one};
use refusal::Refusal;

// Where the reading stands: the next rule's place, the rules kept so far, the year of the last of them, how many are active,
// and whether the two flag bits agree in each.
#[derive(Clone, Copy)]
pub struct Walk {
    pub at: usize,
    pub kept: usize,
    pub before: Option<u16>,
    pub active: usize,
    pub agree: bool,
}

// Past a rule that is kept.
fn walk_on(w: Walk, k: KeptRule) -> Walk
    requires { (w.kept < 65536) × (w.active < 65536) }
    ensures { result ≡ walk_over w (kept_one k) }
{
    Walk {
        at: k.end,
        kept: w.kept + 1,
        before: Some(k.rule.year),
        active: w.active + usize::from(k.rule.active),
        agree: w.agree && k.agree,
    }
}

// One rule further.
fn walk_one(bytes: &[u8], w: Walk) -> Result<Walk, Refusal>
    requires { (w.at ≤ length bytes.now) × (w.kept < 65536) × (w.active < 65536) }
    ensures { outcome_of result ≡ walk_one bytes.now w }
{
    match read_one(bytes, w.at, w.before)? {
        One::Skipped(end) => Ok(Walk { at: end, ..w }),
        One::Kept(k) => Ok(walk_on(w, k)),
    }
}

fn walk_rules(bytes: &[u8], start: usize, count: usize) -> Result<Walk, Refusal>
    requires { (start ≤ length bytes.now) × (count ≤ 1024) }
    ensures { outcome_of result ≡ walk_rules bytes.now count (begun start) }
{
    let mut w = Walk {
        at: start,
        kept: 0,
        before: None,
        active: 0,
        agree: true,
    };
    for _ in 0..count {
        w = walk_one(bytes, w)?;
    }
    Ok(w)
}

// Exactly one active rule, and nothing after the last rule where the header's minor is 1.
fn finish(bytes: &[u8], h: Header, w: Walk) -> Result<Walk, Refusal>
    ensures { outcome_of result ≡ finished bytes.now h w }
{
    if !w.agree || w.active != 1 {
        return Err(Refusal::ActiveRules);
    }
    if h.minor == 1 && w.at != bytes.len() {
        return Err(Refusal::WrongSize);
    }
    Ok(w)
}

// All that follows a header.
pub fn walk_body(bytes: &[u8], h: Header) -> Result<Walk, Refusal>
    requires { (4 + h.size ≤ length bytes.now) × (h.count ≤ 1024) }
    ensures { outcome_of result ≡ walk_body bytes.now h }
{
    let w = walk_rules(bytes, 4 + h.size, h.count)?;
    finish(bytes, h, w)
}

fn walk_all(bytes: &[u8]) -> Result<Walk, Refusal>
    ensures { outcome_of result ≡ walk_all bytes.now }
{
    let h = read_header(bytes)?;
    walk_body(bytes, h)
}

// How many rules a definition keeps.
pub fn kept_rules(bytes: &[u8]) -> Result<usize, Refusal>
    ensures { outcome_of result ≡ written (kept_rules bytes.now) }
{
    let w = walk_all(bytes)?;
    Ok(w.kept)
}
