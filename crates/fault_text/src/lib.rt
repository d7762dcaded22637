// The refusal of a rule's text as a person reads it: the refusal's line, the text, and under it a mark at the place.
#![tactic(auto)]

ghost use Rattle.std.specs.Prelude.{◌≡◌, map, ◌+◌, ◌≤◌, length, replicate};
ghost use Rattle.text_pieces.specs.Put.{Put};
ghost use Rattle.fault_text.specs.Fault.{shown, marked, fault_answer, fault_after};

use meaning::Refusal;
use text_pieces::{put_bytes, refusal_text};

// So many bytes of the text show at most, and so many spaces before the mark.
const LONGEST: usize = 1024;

// The byte as it shows: itself, or `?` where it is no printable ASCII.
#[tactic(auto, unfolding(crate::specs::Fault::shown))]
fn printable(byte: u8) -> u8
    ensures { result ≡ shown byte }
{
    match byte {
        32..=126 => byte,
        _ => b'?',
    }
}

fn put_shown(out: &mut [u8], at: usize, text: &[u8]) -> usize
    requires { at + length text.now ≤ length out.old }
    ensures { Put out.old at (map shown text.now) out.new result }
{
    for (i, &byte) in text.iter().enumerate() {
        out[at + i] = printable(byte);
    }
    at + text.len()
}

fn put_spaces(out: &mut [u8], at: usize, n: usize) -> usize
    requires { at + n ≤ length out.old }
    ensures { Put out.old at (replicate n 32) out.new result }
{
    let end = at + n;
    out[at..end].fill(b' ');
    end
}

// The text's line and the mark's.
fn put_marked(out: &mut [u8], at: usize, text: &[u8], place: usize) -> usize
    requires { at + 2051 ≤ length out.old }
    ensures put { Put out.old at (marked text.now place) out.new result }
    ensures upper_bound { result ≤ at + 2051 }
{
    let n = text.len().min(LONGEST);
    let end = put_shown(out, at, &text[..n]);
    let below = put_bytes(out, end, b"\n");
    let mark = put_spaces(out, below, place.min(LONGEST));
    put_bytes(out, mark, b"^\n")
}

// The refusal, the text and the mark at the front of the output, and their length; or 10 where the output has fewer
// than 4,096 bytes, and every byte of it as it was. Bytes past the mark's line are kept.
pub fn fault_text(refusal: Refusal, text: &[u8], out: &mut [u8]) -> Result<usize, Refusal>
    ensures answer { result ≡ fault_answer refusal text.now out.old }
    ensures output { out.new ≡ fault_after refusal text.now out.old }
{
    if out.len() < 4096 {
        return Err(Refusal::ShortOutput);
    }
    let line = refusal_text(refusal, out)?;
    Ok(put_marked(out, line, text, refusal.place()))
}
