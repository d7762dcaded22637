// Builds the rule files of a stream of cases on standard input: a two-byte length and the rule file, a two-byte
// length of the output, a two-byte count and the events of a run. Writes a line for each case. A table is opened with
// its length as the number.
#![tactic(auto)]

ghost use Rattle.std.specs.Prelude.{◌≤◌};

use console::{front, number, part, say_run};
use meaning::{Counts, State};
use std::io;
use std::io::{Read, Write};
use table_layout::{successor_at, verdict_at};

// What the output holds before a table is built into it.
const PAINT: u8 = 165;

// Only writes: whether the bytes from a place on are as they were before.
fn say_kept<W: Write>(to: &mut W, buffer: &[u8], from: usize) -> io::Result<()> {
    if buffer.iter().skip(from).all(|byte| *byte == PAINT) {
        write!(to, " kept")?;
    }
    Ok(())
}

// Only writes: a state with its verdict and its successors.
fn say_row<W: Write>(to: &mut W, t: &[u8], signals: u8, state: u16) -> io::Result<()>
    requires { signals ≤ 4 }
{
    write!(to, " | {state} {} ", verdict_at(t, signals, state))?;
    for e in 0..events::width(signals) {
        write!(to, "{} ", successor_at(t, signals, state, e as u8))?;
    }
    Ok(())
}

// Only writes: the table's counts and rows, and a run over the events.
fn say_table<W: Write>(to: &mut W, t: &[u8], events: &[u8]) -> io::Result<()> {
    write!(to, "built {}", t.len())?;
    let Counts { signals, states } = match table_file::check(t) {
        Ok(counts) => counts,
        Err(why) => return write!(to, "{why}"),
    };
    write!(to, " signals {signals} states {states}")?;
    if signals <= 4 {
        for s in 0..states {
            say_row(to, t, signals, s)?;
        }
    }
    write!(to, " run ")?;
    let opening = (t.len() % 65536) as u16;
    let start = State { opening, number: 0 };
    say_run(to, opened::open_and_run(t, opening, start, events))
}

fn say_case<W: Write>(to: &mut W, rule: &[u8], out: &mut [u8], events: &[u8]) -> io::Result<()> {
    out.fill(PAINT);
    match monitor::build(rule, out) {
        Err(why) => {
            write!(to, "{why}")?;
            say_kept(to, out, 0)?;
        }
        Ok(n) => {
            say_table(to, front(out, n), events)?;
            say_kept(to, out, n)?;
        }
    }
    writeln!(to)
}

// Reads and answers one case; false at the end of the input.
fn case<R: Read, W: Write>(
    input: &mut R,
    to: &mut W,
    rule: &mut [u8],
    out: &mut [u8],
    events: &mut [u8],
) -> io::Result<bool> {
    let Some(rule) = part(input, rule)? else {
        return Ok(false);
    };
    let Some(room) = number(input)? else {
        return Ok(false);
    };
    let room = usize::from(room);
    if out.len() < room {
        return Ok(false);
    }
    let Some(events) = part(input, events)? else {
        return Ok(false);
    };
    say_case(to, rule, &mut out[..room], events)?;
    Ok(true)
}

fn main(rt: HostRuntime) -> io::Result<()> {
    let mut input = rt.stdin();
    let mut to = rt.stdout();
    let mut rule = [0u8; 4096];
    let mut out = [0u8; 9600];
    let mut events = [0u8; 4096];
    for _ in 0..100000 {
        if !case(&mut input, &mut to, &mut rule, &mut out, &mut events)? {
            break;
        }
    }
    Ok(())
}
