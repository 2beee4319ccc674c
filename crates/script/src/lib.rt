// Scripts: lists of calls on a tally, made one after the other over one lent buffer. What they answer is what document 01's pencil account says.
#![tactic(auto)]

ghost use Rattle.std.specs.Prelude.{◌≡◌, ◌<◌, length, get_or};
ghost use Rattle.refusal.specs.Number.{number_of};
ghost use Rattle.refusal.specs.Results.{outcome_of};
ghost use Rattle.tally.specs.Answers.{of_tally, or_else, no_tally};
ghost use Rattle.script.specs.Scripts.{script_outcome, tally_told, buffer_left, log_left};
ghost use Rattle.script.specs.Steps.{no_call, started_at, begun, is_going, took, told_to, after_booking, booked_call, after_saving, after_reading, record_length, buffer_state, buffer_bytes, logged_state, logged_bytes, turn_state, turn_buffer, turn_log, finished};

use refusal::Refusal;
use tally::booking::{ask, book_on};
use tally::tallies::{Answer, Tally};
use zone::rules::Rule;
use zone::ticks::UtcTick;

// A call of a script: 0 books the run from one tick to before another, 1 saves into the buffer, any other number reads the record in it.
#[repr(C)]
#[derive(Clone, Copy)]
pub struct ScriptCall {
    pub kind: u32,
    pub from: UtcTick,
    pub to: UtcTick,
}

// How far a script is: the next call's place, the call, and what it was told. While `kept` is true the buffer starts with the record that the last accepted saving
// wrote, and no run was accepted since.
#[derive(Clone, Copy)]
pub struct State {
    pub at: usize,
    pub end: usize,
    pub short: bool,
    pub kept: bool,
    pub told: u8,
    pub call: ScriptCall,
    pub tally: Tally,
}

// ---- the start
fn start(at: usize, end: usize, short: bool) -> State
    ensures { result ≡ started_at at end short }
{
    let tally = Tally::fresh();
    let call = ScriptCall {
        kind: 0,
        from: UtcTick(0),
        to: UtcTick(0),
    };
    State {
        at,
        end,
        short,
        kept: false,
        told: 0,
        call,
        tally,
    }
}

// Where the log has no room for a number of each call, nothing is left to be done.
pub fn begin(calls: usize, room: usize) -> State
    ensures { result ≡ begun calls room }
{
    if room < calls {
        return start(calls, calls, true);
    }
    start(0, calls, false)
}

pub fn going(state: State) -> bool
    ensures { result ≡ is_going state }
{
    state.at < state.end
}

// ---- the call
fn next_call(calls: &[ScriptCall], state: State) -> State
    requires { state.at < length calls.now }
    ensures { result ≡ took calls.now state }
{
    let call = calls[state.at];
    State { call, ..state }
}

// ---- what the call is told
fn tell(state: State, told: u8, kept: bool, tally: Tally) -> State
    ensures { result ≡ told_to told kept tally state }
{
    State {
        kept,
        told,
        tally,
        ..state
    }
}

// Every number of the table fits in a byte.
fn byte_of(why: Refusal) -> u8
    ensures { result ≡ number_of why }
{
    u32::from(why) as u8
}

// ---- a booking
// An accepted run puts its tally in place, and the record in the buffer is another tally's.
fn after_booking(answer: Answer, state: State) -> State
    ensures { result ≡ after_booking answer state }
{
    let new = answer.tally;
    let old = state.tally;
    let check = answer.check;
    match check {
        Ok(()) => tell(state, 0, false, new),
        Err(why) => tell(state, byte_of(why), state.kept, old),
    }
}

// Books the call's run, if the call is a booking.
fn book_call(row: &[Rule], state: State) -> State
    ensures { result ≡ booked_call row.now state }
{
    let call = state.call;
    if call.kind != 0 {
        return state;
    }
    let tally = state.tally;
    let answer = book_on(row, ask(tally, call.from, call.to));
    after_booking(answer, state)
}

// ---- a saving, and a reading
fn after_saving(answer: Result<usize, Refusal>, state: State) -> State
    ensures { result ≡ after_saving (outcome_of answer) state }
{
    let tally = state.tally;
    match answer {
        Ok(_) => tell(state, 0, true, tally),
        Err(why) => tell(state, byte_of(why), state.kept, tally),
    }
}

fn after_reading(answer: Answer, state: State) -> State
    ensures { result ≡ after_reading (of_tally answer) state }
{
    let new = answer.tally;
    let old = state.tally;
    let check = answer.check;
    match check {
        Ok(()) => tell(state, 0, state.kept, new),
        Err(why) => tell(state, byte_of(why), state.kept, old),
    }
}

// How many of the buffer's bytes a reading is given: the record's, or none, which document 01 refuses.
fn record_length(kept: bool, room: usize) -> usize
    ensures { result ≡ record_length kept room }
{
    if !kept {
        return 0;
    }
    if room < 68 {
        return room;
    }
    68
}

// Saves into the buffer or reads from it, if the call is a saving or a reading.
fn use_buffer(buffer: &mut [u8], state: State) -> State
    ensures { (result ≡ buffer_state buffer.old state) × (buffer.new ≡ buffer_bytes buffer.old state) }
{
    let call = state.call;
    if call.kind == 0 {
        return state;
    }
    if call.kind == 1 {
        let tally = state.tally;
        return after_saving(tally.save(buffer).answer, state);
    }
    let length = record_length(state.kept, buffer.len());
    let answer = Tally::read(&buffer[..length]);
    after_reading(answer, state)
}

// ---- the log
fn log_call(log: &mut [u8], state: State) -> State
    requires { state.at < length log.old }
    ensures { (result ≡ logged_state log.old state) × (log.new ≡ logged_bytes log.old state) }
{
    let i = state.at;
    log[i] = state.told;
    State { at: i + 1, ..state }
}

// ---- the whole
pub fn turn(
    row: &[Rule],
    calls: &[ScriptCall],
    buffer: &mut [u8],
    log: &mut [u8],
    state: State,
) -> State
    requires { (state.at < length calls.now) × (state.at < length log.old) }
    ensures { (result ≡ turn_state row.now calls.now buffer.old log.old state) × ((buffer.new ≡ turn_buffer row.now calls.now buffer.old log.old state) × (log.new ≡ turn_log row.now calls.now buffer.old log.old state)) }
{
    let asked = next_call(calls, state);
    let booked = book_call(row, asked);
    let done = use_buffer(buffer, booked);
    log_call(log, done)
}

// The tally after the last call, or 13 and a tally that does not hold.
pub fn finish(state: State) -> Answer
    ensures { result ≡ finished state }
{
    if state.short {
        let none = Tally {
            end: UtcTick(0),
            totals: [0; 7],
        };
        return Answer {
            check: Err(Refusal::NoRoom),
            tally: none,
        };
    }
    let tally = state.tally;
    Answer {
        check: Ok(()),
        tally,
    }
}

// Makes the calls from a fresh tally on, in the zone of a row, and logs the number that each is told: 0 where it is answered. 13 and nothing done where the log is
// shorter than the calls.
pub fn run_script(row: &[Rule], calls: &[ScriptCall], buffer: &mut [u8], log: &mut [u8]) -> Answer
    ensures { ((of_tally result ≡ tally_told (script_outcome row.now calls.now buffer.old (length log.old))) × (result.tally ≡ or_else (tally_told (script_outcome row.now calls.now buffer.old (length log.old))) no_tally)) × ((buffer.new ≡ buffer_left (script_outcome row.now calls.now buffer.old (length log.old)) buffer.old) × (log.new ≡ log_left (script_outcome row.now calls.now buffer.old (length log.old)) log.old)) }
{
    let mut state = begin(calls.len(), log.len());
    while going(state) {
        state = turn(row, calls, buffer, log, state);
    }
    finish(state)
}
