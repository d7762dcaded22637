// Writes the rule file of a rule's text: the number of signals is the argument, the text is read from standard input,
// and the rule file goes to standard output. A refusal goes to standard error, with the text and a mark under the
// refusal's place.
#![tactic(auto)]

use console::{arg_count, front, read_full, say_failure};
use fault_text::fault_text;
use meaning::Refusal;
use std::env::Env;
use std::io;
use std::io::Write;
use text_input::{Asked, read_argument, without_line_end};

const USAGE: &[u8] = b"usage: write_rule SIGNALS <TEXT >RULE
Writes the rule file of a rule's text: signals s0 to s3, true, false, ! X F G, brackets,
U & ^ | -> <-> (tightest first). One line end at the end of the text is dropped.
SIGNALS is the number of signals, 1 to 4. A refusal goes to standard error, with a mark
under its place.
Example: echo 'G (s0 -> X (!s0 U s1))' | write_rule 2 | print_table
";

// Only writes: the refusal, the text and the mark, on standard error.
fn say_fault(rt: &HostRuntime, refusal: Refusal, text: &[u8]) -> io::Result<()> {
    let mut page = [0u8; 4096];
    if let Ok(n) = fault_text(refusal, text, &mut page) {
        rt.stderr().write_all(front(&page, n))?;
    }
    Ok(())
}

// Only writes: the rule file on standard output, or the refusal. The buffer has room for every rule file.
fn answer(rt: &HostRuntime, text: &[u8], signals: u8) -> io::Result<()> {
    let mut rule = [0u8; 4096];
    match rule_text::write(text, signals, &mut rule) {
        Err(refusal) => say_fault(rt, refusal, text),
        Ok(n) => match rt.stdout().write_all(front(&rule, n)) {
            Ok(()) => Ok(()),
            Err(why) => say_failure(rt, "write_rule: standard output", why),
        },
    }
}

// Reads the text and answers it. A failed read is said on standard error, and nothing is answered.
fn read_and_answer(rt: &HostRuntime, signals: u8) -> io::Result<()> {
    // What is taken: 1,024 bytes, a line end, and one byte more, by which a longer text is seen to be too long.
    let mut text = [0u8; 1026];
    match read_full(&mut rt.stdin(), &mut text) {
        Ok(n) => answer(rt, without_line_end(front(&text, n)), signals),
        Err(why) => say_failure(rt, "write_rule: standard input", why),
    }
}

fn main(rt: HostRuntime) -> io::Result<()> {
    if arg_count(&rt) != 2 {
        return rt.stderr().write_all(USAGE);
    }
    let mut word = [0u8; 8];
    let n = rt.arg(1, &mut word).unwrap_or(0);
    match read_argument(front(&word, n)) {
        Some(Asked::For(signals)) => read_and_answer(&rt, signals),
        Some(Asked::Help) => rt.stdout().write_all(USAGE),
        None => rt.stderr().write_all(USAGE),
    }
}
