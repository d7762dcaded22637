// Writes the rule files of a stream of texts on standard input: a two-byte length and the text, a byte for the number
// of signals, a two-byte length of the output. Writes a line for each: the rule file's length or the refusal, and the
// whole output in hexadecimal.
#![tactic(auto)]

use console::{fill, number, part};
use std::io;
use std::io::{Read, Write};

// What the output holds before a rule file is written into it.
const PAINT: u8 = 165;

fn say_case<W: Write>(out: &mut W, text: &[u8], signals: u8, rule: &mut [u8]) -> io::Result<()> {
    rule.fill(PAINT);
    match rule_text::write(text, signals, rule) {
        Ok(n) => write!(out, "{n} ")?,
        Err(why) => write!(out, "{why} ")?,
    }
    for byte in rule.iter() {
        write!(out, "{byte:02x}")?;
    }
    writeln!(out)
}

// Reads and answers one case; false at the end of the input.
fn case<R: Read, W: Write>(
    input: &mut R,
    out: &mut W,
    text: &mut [u8],
    rule: &mut [u8],
) -> io::Result<bool> {
    let Some(text) = part(input, text)? else {
        return Ok(false);
    };
    let mut signals = [0u8; 1];
    if !fill(input, &mut signals, 1)? {
        return Ok(false);
    }
    let Some(room) = number(input)? else {
        return Ok(false);
    };
    let room = usize::from(room);
    if rule.len() < room {
        return Ok(false);
    }
    say_case(out, text, signals[0], &mut rule[..room])?;
    Ok(true)
}

fn main(rt: HostRuntime) -> io::Result<()> {
    let mut input = rt.stdin();
    let mut out = rt.stdout();
    let mut text = [0u8; 4096];
    let mut rule = [0u8; 4096];
    for _ in 0..100000 {
        if !case(&mut input, &mut out, &mut text, &mut rule)? {
            break;
        }
    }
    Ok(())
}
