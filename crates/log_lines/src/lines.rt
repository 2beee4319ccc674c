// Lines of a log of runs.
ghost use Rattle.std.specs.Prelude.{◌≡◌, ◌≤◌, length};
ghost use Rattle.std.specs.List.{prefix_len};
ghost use Rattle.calendar.specs.Revisions.{revision12};
ghost use Rattle.time_text.specs.Times.{utc_time};
ghost use Rattle.log_lines.specs.Lines.{is_blank, is_word, is_text, take_while, first_word, next_word, run_of, log_line};

use crate::faults::Fault;
use calendar::revisions::REVISION_1_2;
use time_text::times::utc_time;
use zone::ticks::UtcTick;

fn is_blank(byte: u8) -> bool
    ensures { result ≡ is_blank byte }
{
    (byte == b' ') | (byte == b'\t') | (byte == b'\r')
}

// With the test as a parameter the contracts would speak of what a closure gives, where the definitions name the test.
// How many bytes stand before a comment, how many blanks in front, and how many bytes the word in front has.
fn text_length(line: &[u8]) -> usize
    ensures { (result ≡ prefix_len is_text line.now) × (result ≤ length line.now) }
{
    line.iter().take_while(|byte| **byte != b'#').count()
}

fn blanks(s: &[u8]) -> usize
    ensures { (result ≡ prefix_len is_blank s.now) × (result ≤ length s.now) }
{
    s.iter().take_while(|byte| is_blank(**byte)).count()
}

fn word_length(s: &[u8]) -> usize
    ensures { (result ≡ prefix_len is_word s.now) × (result ≤ length s.now) }
{
    s.iter().take_while(|byte| !is_blank(**byte)).count()
}

fn text_of(line: &[u8]) -> &[u8]
    ensures { result.now ≡ take_while is_text line.now }
{
    let n = text_length(line);
    &line[..n]
}

fn word(s: &[u8]) -> &[u8]
    ensures { result.now ≡ take_while is_word s.now }
{
    let n = word_length(s);
    &s[..n]
}

// From the first word on, and from a word to the next.
fn first_word(s: &[u8]) -> &[u8]
    ensures { result.now ≡ first_word s.now }
{
    let n = blanks(s);
    &s[n..]
}

fn next_word(s: &[u8]) -> &[u8]
    ensures { result.now ≡ next_word s.now }
{
    let n = word_length(s);
    first_word(&s[n..])
}

// Two times are a run.
fn run_of(from: &[u8], to: &[u8]) -> Result<(UtcTick, UtcTick), Fault>
    ensures { result ≡ run_of (utc_time revision12 from.now) (utc_time revision12 to.now) }
{
    let from = utc_time(REVISION_1_2, from)?;
    let to = utc_time(REVISION_1_2, to)?;
    Ok((UtcTick(from), UtcTick(to)))
}

// The run that a line without its newline says, if it says anything.
pub fn log_line(line: &[u8]) -> Result<Option<(UtcTick, UtcTick)>, Fault>
    ensures { result ≡ log_line line.now }
{
    let first = first_word(text_of(line));
    if first.is_empty() {
        return Ok(None);
    }
    let second = next_word(first);
    if second.is_empty() {
        return Err(Fault::NotTwoTimes);
    }
    let third = next_word(second);
    if !third.is_empty() {
        return Err(Fault::NotTwoTimes);
    }
    Ok(Some(run_of(word(first), word(second))?))
}
