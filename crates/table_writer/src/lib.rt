// Writes a table file from its verdict bytes, its rows of successors and the mask of the events that can happen.
#![tactic(auto)]

ghost use Rattle.std.specs.Prelude.{◌≡◌, cond, List, ℕ, ◌+◌, ◌*◌, ◌^◌, ◌≤◌, ◌<◌, length, eqb};
ghost use Rattle.std.proofs.lemmas.List.Edits.{sets};
ghost use Rattle.meaning.specs.Bytes.{bit};
ghost use Rattle.meaning.specs.Traces.{masked};
ghost use Rattle.meaning.specs.TableFiles.{row_length, no_successor};
ghost use Rattle.table_bytes.specs.Written.{header_bytes, successor_bytes, row_bytes, rows_bytes, written_of, table_after};

use events::{mask_has, width};
use meaning::Refusal;
use table_layout::row_at;
use wire::put_u16;

fn put_header(out: &mut [u8], signals: u8, states: u16)
    requires { 7 ≤ length out.old }
    ensures { out.new ≡ sets out.old 0 (header_bytes signals states) }
{
    put_u16(out, 0, 5);
    put_u16(out, 2, 512);
    out[4] = signals;
    put_u16(out, 5, states);
}

// A successor as it is written: 65,535 for an event that cannot happen.
fn written_successor(mask: u16, event: usize, to: u8) -> u16
    requires { event < 16 }
    ensures { result ≡ cond (eqb (bit event mask) 1) to no_successor }
{
    if mask_has(mask, event) {
        u16::from(to)
    } else {
        65535
    }
}

fn put_successors(out: &mut [u8], at: usize, events: usize, mask: u16, row: [u8; 16])
    requires { (events ≤ 16) × (at + 2 * events ≤ length out.old) }
    ensures { out.new ≡ sets out.old at (successor_bytes (masked events mask) events row) }
{
    for e in 0..events {
        put_u16(out, at + 2 * e, written_successor(mask, e, row[e]));
    }
}

fn put_row(out: &mut [u8], at: usize, signals: u8, mask: u16, verdict: u8, row: [u8; 16])
    requires { (signals ≤ 4) × (at + row_length signals ≤ length out.old) }
    ensures { out.new ≡ sets out.old at (row_bytes (masked (2 ^ signals) mask) signals verdict row) }
{
    let n = width(signals);
    put_u16(out, at, (3 + 2 * n) as u16);
    put_u16(out, at + 2, 513);
    out[at + 4] = verdict;
    put_successors(out, at + 5, n, mask, row);
}

fn put_rows(
    out: &mut [u8],
    signals: u8,
    mask: u16,
    states: u16,
    verdicts: &[u8; 256],
    rows: &[[u8; 16]; 256],
)
    requires { (signals ≤ 4) × (states ≤ 256) × (7 + states * row_length signals ≤ length out.old) }
    ensures { out.new ≡ sets out.old 7 (rows_bytes (masked (2 ^ signals) mask) signals states verdicts.now rows.now) }
{
    for s in 0..states {
        let i = usize::from(s);
        put_row(out, row_at(signals, s), signals, mask, verdicts[i], rows[i]);
    }
}

// The table's bytes at the front of the output and its length, or 10 and every byte of the output as it was. Bytes
// past the table are kept.
pub fn write(
    out: &mut [u8],
    signals: u8,
    mask: u16,
    states: u16,
    verdicts: &[u8; 256],
    rows: &[[u8; 16]; 256],
) -> Result<usize, Refusal>
    requires { (signals ≤ 4) × (states ≤ 256) }
    ensures value { result ≡ written_of signals states out.old }
    ensures out_after { out.new ≡ table_after (masked (2 ^ signals) mask) signals states verdicts.now rows.now out.old }
{
    let n = row_at(signals, states);
    if out.len() < n {
        return Err(Refusal::ShortOutput);
    }
    put_header(out, signals, states);
    put_rows(out, signals, mask, states, verdicts, rows);
    Ok(n)
}
