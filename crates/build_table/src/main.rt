// Builds the table of a rule file: the rule file is read from standard input, and the table goes to standard output. A
// refusal goes to standard error.
#![tactic(auto)]

use console::{arg_count, front, read_full, say_failure};
use meaning::Refusal;
use std::env::Env;
use std::io;
use std::io::Write;
use text_input::{Asked, read_argument};
use text_pieces::refusal_text;

const USAGE: &[u8] = b"usage: build_table <RULE >TABLE
Builds the smallest table of a rule file. A refusal goes to standard error.
Example: echo 'G (s0 -> X (!s0 U s1))' | write_rule 2 | build_table | run_table 101
";

// Only writes: the refusal's line, on standard error.
fn say_refused(rt: &HostRuntime, why: Refusal) -> io::Result<()> {
    let mut line = [0u8; 64];
    if let Ok(n) = refusal_text(why, &mut line) {
        rt.stderr().write_all(front(&line, n))?;
    }
    Ok(())
}

// Only writes: the table on standard output, or the refusal.
fn answer(rt: &HostRuntime, rule: &[u8]) -> io::Result<()> {
    // Room for any table, of which the longest has 9,479 bytes.
    let mut table = [0u8; 9600];
    match monitor::build(rule, &mut table) {
        Err(why) => say_refused(rt, why),
        Ok(n) => match rt.stdout().write_all(front(&table, n)) {
            Ok(()) => Ok(()),
            Err(why) => say_failure(rt, "build_table: standard output", why),
        },
    }
}

// Reads the rule file and answers. A failed read is said on standard error, and nothing is answered.
fn read_and_answer(rt: &HostRuntime) -> io::Result<()> {
    // What is taken: the first 4,096 bytes of standard input, or all if there are fewer.
    let mut rule = [0u8; 4096];
    match read_full(&mut rt.stdin(), &mut rule) {
        Ok(n) => answer(rt, front(&rule, n)),
        Err(why) => say_failure(rt, "build_table: standard input", why),
    }
}

// Whether the one argument asks for the help.
fn asks_for_help(rt: &HostRuntime) -> bool {
    let mut word = [0u8; 8];
    let n = rt.arg(1, &mut word).unwrap_or(0);
    arg_count(rt) == 2 && matches!(read_argument(front(&word, n)), Some(Asked::Help))
}

// The usage goes to standard output where it is asked for, and otherwise to standard error.
fn main(rt: HostRuntime) -> io::Result<()> {
    if arg_count(&rt) == 1 {
        read_and_answer(&rt)
    } else if asks_for_help(&rt) {
        rt.stdout().write_all(USAGE)
    } else {
        rt.stderr().write_all(USAGE)
    }
}
