// Prints the table of a rule file as text; a refusal prints as one line.
#![tactic(auto)]

use console::{front, read_full};
use std::io;
use std::io::Write;

fn main(rt: HostRuntime) -> io::Result<()> {
    // What is taken: the first 4,096 bytes of standard input, or all if there are fewer.
    let mut rule = [0u8; 4096];
    let n = read_full(&mut rt.stdin(), &mut rule)?;
    // Room for every text.
    let mut text = [0u8; 32768];
    if let Ok(length) = table_printer::print_rule(front(&rule, n), &mut text) {
        rt.stdout().write_all(front(&text, length))?;
    }
    Ok(())
}
