// A table is opened once and stepped many times from the caller's own bytes; every public function takes any input.
#![tactic(auto)]

ghost use Rattle.std.specs.Prelude.{◌≡◌, ◌∷◌, []};
ghost use Rattle.meaning.specs.Runs.{row_read};
ghost use Rattle.meaning.specs.Openings.{opening, run_from};
ghost use Rattle.meaning.specs.Recordings.{judged_of};
ghost use Rattle.opened.specs.OpenedTables.{opened_of, outcome_by, start_by, stepped_by, ran_by, row_by, stepped_all, judged_by, freshened_by, posted_by, turned_by};

use desk::serve;
use desk_tasks::{post_request, turn_request};
use meaning::{Arrival, Counts, Refusal, Served, State, StateRow, Verdict, Watch};

// ---- over an opened table

// An opened table: the caller's bytes, the counts that opening found, none where it refused, and the number that the
// caller chose, in private fields, so that only `open` makes one.
#[derive(Clone, Copy)]
pub struct Opened<'a> {
    bytes: &'a [u8],
    found: Option<Counts>,
    number: u16,
}

// Checks the bytes, once, and keeps the number, which states of this opening carry; a refused opening runs nowhere.
pub fn open<'a>(bytes: &'a [u8], number: u16) -> Opened<'a>
    ensures { result ≡ opened_of bytes.entry number }
{
    Opened {
        bytes,
        found: table_file::check(bytes).ok(),
        number,
    }
}

// What opening found: the counts, or refusal 14. No table has 0 states.
pub fn outcome<'a>(t: Opened<'a>) -> Result<Counts, Refusal>
    ensures { result ≡ outcome_by t.entry }
{
    match t.found {
        Some(counts) if 1 <= counts.states => Ok(counts),
        _ => Err(Refusal::WrongTable),
    }
}

// The start: state 0, with the number of the opening.
pub fn start<'a>(t: Opened<'a>) -> State
    ensures { result ≡ start_by t.entry }
{
    openings::start_of(t.number)
}

// One event: 14 where opening refused, then 24, 13 and 12, and otherwise the successor with its verdict.
pub fn step<'a>(t: Opened<'a>, state: State, event: u8) -> Result<Arrival<State>, Refusal>
    ensures { result ≡ stepped_by t.entry state event }
{
    let counts = t.found.ok_or(Refusal::WrongTable)?;
    openings::step_from(
        t.bytes,
        counts.signals,
        counts.states,
        t.number,
        state,
        event,
    )
}

// The row of the state with a number, which needs no opening's: 14 where opening refused, then 13, and otherwise its
// verdict and its successor for each event.
pub fn row<'a>(t: Opened<'a>, state: u16) -> Result<StateRow, Refusal>
    ensures { result ≡ row_by t.entry state }
{
    let counts = t.found.ok_or(Refusal::WrongTable)?;
    table_run::row_in(t.bytes, counts.signals, counts.states, state)
}

// A run over a list of events: 14 where opening refused, then 24, 13 and 12 at the first such event, and otherwise
// where the run arrives.
pub fn run<'a, 'e>(t: Opened<'a>, state: State, events: &'e [u8]) -> Result<Arrival<State>, Refusal>
    ensures { result ≡ ran_by t.entry state events.now }
{
    let counts = t.found.ok_or(Refusal::WrongTable)?;
    openings::run_from(
        t.bytes,
        counts.signals,
        counts.states,
        t.number,
        state,
        events,
    )
}

// Steps through a list of events, one by one; a refused step leaves the state as it is.
pub fn step_all<'a, 'e>(t: Opened<'a>, state: State, events: &'e [u8]) -> State
    ensures { result ≡ stepped_all t.entry state events.now }
{
    match t.found {
        Some(counts) => {
            openings::step_all_from(
                t.bytes,
                counts.signals,
                counts.states,
                t.number,
                state,
                events,
            )
        }
        None => state,
    }
}

// Judges two recordings over all completions from state 0: 14 where opening refused, then 22, then event by event 12,
// 23 and 12.
pub fn judge_recordings<'a, 'x, 'y>(
    t: Opened<'a>,
    first: &'x [u8],
    second: &'y [u8],
) -> Result<Verdict, Refusal>
    ensures { result ≡ judged_by t.entry first.now second.now }
{
    let counts = t.found.ok_or(Refusal::WrongTable)?;
    recordings::judge_in(t.bytes, counts.signals, counts.states, first, second)
}

// ---- a desk

// Makes a fresh desk of the row, whatever stood there: 14 where opening refused, then 18.
pub fn fresh<'d, 'a>(desk: &'d mut [Watch], t: Opened<'a>) -> Result<Served, Refusal>
    ensures { (result ≡ (freshened_by t.entry desk.old).answer) × (desk.new ≡ (freshened_by t.entry desk.old).desk) }
{
    let counts = t.found.ok_or(Refusal::WrongTable)?;
    desk::fresh(desk, t.bytes, counts.signals, counts.states, t.number)
}

// Posts an event to the watch with a number: 14 where opening refused, then 18, 24, 13, 19, 12, 20 and 21.
pub fn post<'d, 'a>(
    desk: &'d mut [Watch],
    t: Opened<'a>,
    number: usize,
    event: u8,
) -> Result<Served, Refusal>
    ensures { (result ≡ (posted_by t.entry desk.old number event).answer) × (desk.new ≡ (posted_by t.entry desk.old number event).desk) }
{
    let counts = t.found.ok_or(Refusal::WrongTable)?;
    let request = post_request(t.number, number, event);
    serve(desk, t.bytes, counts.signals, counts.states, request)
}

// Hears the oldest event of the next watch after the number last heard, going round: 14 where opening refused, then
// 18, 24 and 13.
pub fn turn<'d, 'a>(desk: &'d mut [Watch], t: Opened<'a>, last: usize) -> Result<Served, Refusal>
    ensures { (result ≡ (turned_by t.entry desk.old last).answer) × (desk.new ≡ (turned_by t.entry desk.old last).desk) }
{
    let counts = t.found.ok_or(Refusal::WrongTable)?;
    serve(
        desk,
        t.bytes,
        counts.signals,
        counts.states,
        turn_request(t.number, last),
    )
}

// ---- with plain parameters

// Opens and runs, for callers that hold no opened table.
pub fn open_and_run(
    bytes: &[u8],
    number: u16,
    state: State,
    events: &[u8],
) -> Result<Arrival<State>, Refusal>
    ensures { result ≡ run_from (opening bytes.now number) state events.now }
{
    run(open(bytes, number), state, events)
}

// Opens and steps, for callers that hold no opened table.
pub fn open_and_step(
    bytes: &[u8],
    number: u16,
    state: State,
    event: u8,
) -> Result<Arrival<State>, Refusal>
    ensures { result ≡ run_from (opening bytes.now number) state (event ∷ []) }
{
    step(open(bytes, number), state, event)
}

// Opens and reads a row, for callers that hold no opened table; no answer carries the number.
pub fn open_and_row(bytes: &[u8], state: u16) -> Result<StateRow, Refusal>
    ensures { result ≡ row_read bytes.now state }
{
    row(open(bytes, 0), state)
}

// Opens once and steps through a list of events, for callers that hold no opened table.
pub fn open_and_step_all(bytes: &[u8], number: u16, state: State, events: &[u8]) -> State
    ensures { result ≡ stepped_all (opened_of bytes.entry number) state events.now }
{
    step_all(open(bytes, number), state, events)
}

// Opens and judges two recordings, for callers that hold no opened table; no answer carries the number.
pub fn open_and_judge(bytes: &[u8], first: &[u8], second: &[u8]) -> Result<Verdict, Refusal>
    ensures { result ≡ judged_of bytes.now first.now second.now }
{
    judge_recordings(open(bytes, 0), first, second)
}
