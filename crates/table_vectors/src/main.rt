// Checks, runs, steps and rewrites the tables of a stream of cases on standard input: a two-byte length and the
// table, a two-byte state, a two-byte count and the events. Writes a line for each case. A table is opened with its
// length as the number; the same state with another number is refused by 24, whatever state and events are.
#![tactic(auto)]

ghost use Rattle.std.specs.Prelude.{◌≤◌};

use console::{number, part, say_run};
use meaning::{Arrival, Counts, Refusal, State};
use std::io;
use std::io::{Read, Write};
use table_layout::{possible_mask, row_at, successor_at};

// A state's row, read from the table. In a checked table a successor is below 256 where its event can happen; what
// else is read is not written again.
fn row_of(t: &[u8], signals: u8, state: u16) -> [u8; 16]
    requires { signals ≤ 4 }
{
    let mut row = [0u8; 16];
    for (e, to) in row.iter_mut().enumerate() {
        *to = (successor_at(t, signals, state, e as u8) % 256) as u8;
    }
    row
}

// Whether the bytes of a are those of b, and zeros past them.
fn kept(a: &[u8], b: &[u8]) -> bool {
    a.iter()
        .enumerate()
        .all(|(i, byte)| *byte == wire::byte_at(b, i))
}

// Whether the table comes out the same when it is written from its rows, verdicts and possible events, with the bytes
// past it kept.
fn rewritten(t: &[u8], signals: u8, states: u16) -> bool
    requires { (signals ≤ 4) × (states ≤ 256) }
{
    let mut rows = [[0u8; 16]; 256];
    let mut verdicts = [0u8; 256];
    for s in 0..states {
        let i = usize::from(s);
        verdicts[i] = wire::byte_at(t, row_at(signals, s) + 4);
        rows[i] = row_of(t, signals, s);
    }
    if t.len() < row_at(signals, 1) {
        return false;
    }
    let mask = possible_mask(t, signals);
    let mut out = [0u8; 9600];
    match table_writer::write(&mut out, signals, mask, states, &verdicts, &rows) {
        Ok(n) => n == t.len() && kept(&out, t),
        Err(_) => false,
    }
}

// Whether the table, opened once and stepped event by event, comes to the state where the run ended; a refused run ends
// nowhere.
fn stepped(
    t: &[u8],
    opening: u16,
    state: State,
    events: &[u8],
    arrived: Result<Arrival<State>, Refusal>,
) -> bool {
    let Ok(at) = arrived else {
        return true;
    };
    let after = opened::open_and_step_all(t, opening, state, events);
    at.state.opening == opening && after.opening == opening && after.number == at.state.number
}

// Whether the state with another number is refused by 24 at 0.
fn kept_apart(t: &[u8], opening: u16, state: u16, events: &[u8]) -> bool {
    let foreign = State {
        opening: opening.wrapping_add(1),
        number: state,
    };
    match opened::open_and_run(t, opening, foreign, events) {
        Ok(_) => false,
        Err(why) => why.number() == 24 && why.place() == 0,
    }
}

// Only writes: the table's counts, a run over the events, and what stepping and writing again do not agree with.
fn say_table<W: Write>(
    out: &mut W,
    t: &[u8],
    counts: Counts,
    state: u16,
    events: &[u8],
) -> io::Result<()> {
    let Counts { signals, states } = counts;
    write!(out, "table {signals} {states}: ")?;
    let opening = (t.len() % 65536) as u16;
    let from = State {
        opening,
        number: state,
    };
    let arrived = opened::open_and_run(t, opening, from, events);
    say_run(out, arrived)?;
    if !stepped(t, opening, from, events, arrived) {
        write!(out, " stepped elsewhere")?;
    }
    if !kept_apart(t, opening, state, events) {
        write!(out, " taken from another opening")?;
    }
    if signals <= 4 && states <= 256 && rewritten(t, signals, states) {
        write!(out, " rewritten")?;
    }
    Ok(())
}

fn say_case<W: Write>(out: &mut W, t: &[u8], state: u16, events: &[u8]) -> io::Result<()> {
    match table_file::check(t) {
        Ok(counts) => say_table(out, t, counts, state, events)?,
        Err(why) => write!(out, "{why}")?,
    }
    writeln!(out)
}

// Reads and answers one case; false at the end of the input.
fn case<R: Read, W: Write>(
    input: &mut R,
    out: &mut W,
    table: &mut [u8],
    events: &mut [u8],
) -> io::Result<bool> {
    let Some(table) = part(input, table)? else {
        return Ok(false);
    };
    let Some(state) = number(input)? else {
        return Ok(false);
    };
    let Some(events) = part(input, events)? else {
        return Ok(false);
    };
    say_case(out, table, state, events)?;
    Ok(true)
}

fn main(rt: HostRuntime) -> io::Result<()> {
    let mut input = rt.stdin();
    let mut out = rt.stdout();
    let mut table = [0u8; 9600];
    let mut events = [0u8; 4096];
    for _ in 0..100000 {
        if !case(&mut input, &mut out, &mut table, &mut events)? {
            break;
        }
    }
    Ok(())
}
