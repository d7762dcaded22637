// The text of a table, into a lent buffer.
#![tactic(auto)]

ghost use Rattle.std.specs.Prelude.{◌≡◌, ◌+◌, ◌*◌, ◌^◌, ◌≤◌, ◌∷◌, length};
ghost use Rattle.text_pieces.specs.Put.{Put};
ghost use Rattle.text_pieces.specs.Decimal.{decimal};
ghost use Rattle.table_text.specs.Text.{word, counts_text, successors_text, line_text, lines_text};
ghost use Rattle.table_text.specs.Text.{text_answer, text_after};

use events::width;
use meaning::{Refusal, Verdict};
use table_file::check;
use table_layout::{successor_at, verdict_at};
use text_pieces::{put_bytes, put_number};

// The word of a verdict.
fn word(verdict: Verdict) -> &'static [u8]
    ensures word { result.now ≡ word verdict }
    ensures upper_bound { length result.now ≤ 9 }
{
    match verdict {
        Verdict::Undecided => b"undecided",
        Verdict::Satisfied => b"satisfied",
        Verdict::Violated => b"violated",
        Verdict::Moot => b"moot",
    }
}

// ---- lines: each is put at a place, and the place after it is returned

// The first line, at the front.
fn put_counts(out: &mut [u8], signals: u8, states: u16) -> usize
    requires { 32 ≤ length out.old }
    ensures put { Put out.old 0 (counts_text signals states) out.new result }
    ensures upper_bound { result ≤ 32 }
{
    let a = put_bytes(out, 0, b"signals ");
    let b = put_number(out, a, u16::from(signals));
    let c = put_bytes(out, b, b" states ");
    let d = put_number(out, c, states);
    put_bytes(out, d, b"\n")
}

// A space and a successor.
fn put_successor(out: &mut [u8], at: usize, to: u16) -> usize
    requires { at + 6 ≤ length out.old }
    ensures put { Put out.old at (32 ∷ decimal to) out.new result }
    ensures upper_bound { result ≤ at + 6 }
{
    out[at] = b' ';
    put_number(out, at + 1, to)
}

fn put_successors(out: &mut [u8], at: usize, table: &[u8], signals: u8, state: u16) -> usize
    requires { (signals ≤ 4) × (at + 96 ≤ length out.old) }
    ensures put { Put out.old at (successors_text table.now signals state (2 ^ signals)) out.new result }
    ensures upper_bound { result ≤ at + 96 }
{
    let events = width(signals);
    let mut next = at;
    for e in 0..events {
        let to = successor_at(table, signals, state, e as u8);
        next = put_successor(out, next, to);
    }
    next
}

// The line of a state.
fn put_line(out: &mut [u8], at: usize, table: &[u8], signals: u8, state: u16) -> usize
    requires { (signals ≤ 4) × (at + 112 ≤ length out.old) }
    ensures put { Put out.old at (line_text table.now signals state) out.new result }
    ensures upper_bound { result ≤ at + 112 }
{
    let a = put_number(out, at, state);
    let b = put_bytes(out, a, b" ");
    let c = put_bytes(out, b, word(verdict_at(table, signals, state)));
    let d = put_successors(out, c, table, signals, state);
    put_bytes(out, d, b"\n")
}

fn put_lines(out: &mut [u8], at: usize, table: &[u8], signals: u8, states: u16) -> usize
    requires { (signals ≤ 4) × (at + 112 * states ≤ length out.old) }
    ensures put { Put out.old at (lines_text table.now signals states) out.new result }
    ensures upper_bound { result ≤ at + 112 * states }
{
    let mut next = at;
    for s in 0..states {
        next = put_line(out, next, table, signals, s);
    }
    next
}

// ---- the text

// The table's text at the front of the output and its length; or 14 where the bytes are no table, then 10 where the
// output has fewer than 32,768 bytes, and every byte of the output as it was. Bytes past the text are kept.
pub fn table_text(table: &[u8], out: &mut [u8]) -> Result<usize, Refusal>
    ensures value { result ≡ text_answer table.now out.old }
    ensures out_after { out.new ≡ text_after table.now out.old }
{
    let counts = check(table)?;
    if out.len() < 32768 {
        return Err(Refusal::ShortOutput);
    }
    let next = put_counts(out, counts.signals, counts.states);
    Ok(put_lines(out, next, table, counts.signals, counts.states))
}
