// Reads rule files from standard input, each after its length in two bytes, and prints a line for each: the rule, its
// mask after its signals, or its refusal.
#![tactic(auto)]

use console::part;
use rule_file::Rule;
use std::io;
use std::io::{Read, Write};

// Only writes: the rule, each node after a space.
fn say_rule<W: Write>(out: &mut W, rule: &Rule) -> io::Result<()> {
    write!(out, "rule {} {} {}:", rule.signals, rule.mask, rule.count)?;
    for node in rule.nodes.iter().take(usize::from(rule.count)) {
        write!(out, " {}.{}.{}.{}", node.kind, node.a, node.b, node.upper)?;
    }
    writeln!(out)
}

// Reads and answers one case; false at the end of the input.
fn case<R: Read, W: Write>(input: &mut R, out: &mut W, file: &mut [u8]) -> io::Result<bool> {
    let Some(file) = part(input, file)? else {
        return Ok(false);
    };
    match rule_file::read(file) {
        Ok(rule) => say_rule(out, &rule)?,
        Err(why) => writeln!(out, "{why}")?,
    }
    Ok(true)
}

fn main(rt: HostRuntime) -> io::Result<()> {
    let mut input = rt.stdin();
    let mut out = rt.stdout();
    let mut file = [0u8; 4096];
    for _ in 0..100000 {
        if !case(&mut input, &mut out, &mut file)? {
            break;
        }
    }
    Ok(())
}
