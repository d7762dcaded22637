// Runs a table from its start: the events are the argument, a digit of base 16 each, and the table is read from
// standard input. Prints where the run arrives, or the refusal.
#![tactic(auto)]

use console::{arg_count, front, read_full, say_failure, say_run};
use openings::start_of;
use std::env::Env;
use std::io;
use std::io::Write;
use text_input::{Asked, read_events};

const USAGE: &[u8] = b"usage: run_table EVENTS <TABLE
Runs a table from its start. Prints the end state, its verdict, and the count of events read when
a verdict other than undecided was first shown, or none; or the refusal.
EVENTS is a digit of base 16 for each event, at most 65536 of them; bit 0 is signal s0.
Example: echo 'G (s0 -> X (!s0 U s1))' | write_rule 2 | build_table | run_table 101
";

// Only writes: where the run from the start arrives, or the refusal.
fn answer<W: Write>(out: &mut W, table: &[u8], events: &[u8]) -> io::Result<()> {
    say_run(out, opened::open_and_run(table, 0, start_of(0), events))?;
    writeln!(out)
}

// Reads the table and answers. A failed read is said on standard error, and nothing is answered.
fn read_and_answer(rt: &HostRuntime, events: &[u8]) -> io::Result<()> {
    // What is taken: the first 9,479 bytes of standard input, as many as the longest table has, or all if there are
    // fewer.
    let mut table = [0u8; 9479];
    match read_full(&mut rt.stdin(), &mut table) {
        Ok(n) => answer(&mut rt.stdout(), front(&table, n), events),
        Err(why) => say_failure(rt, "run_table: standard input", why),
    }
}

// Does what the argument asks for.
fn serve(rt: &HostRuntime, argument: &mut [u8]) -> io::Result<()> {
    match read_events(argument) {
        Some(Asked::For(())) => read_and_answer(rt, argument),
        Some(Asked::Help) => rt.stdout().write_all(USAGE),
        None => rt.stderr().write_all(USAGE),
    }
}

// An argument that is longer than its buffer is none.
fn main(rt: HostRuntime) -> io::Result<()> {
    if arg_count(&rt) != 2 {
        return rt.stderr().write_all(USAGE);
    }
    let mut word = [0u8; 65536];
    match rt.arg(1, &mut word) {
        Ok(n) => serve(&rt, &mut word[..n]),
        Err(_) => rt.stderr().write_all(USAGE),
    }
}
