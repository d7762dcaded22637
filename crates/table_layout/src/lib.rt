// The layout of a table file: whether counts go with its length, where a state's record stands, and what stands in it.
#![tactic(auto)]

ghost use Rattle.std.specs.Prelude.{◌≡◌, cond, not, ◌+◌, ◌*◌, ◌^◌, ◌≤◌, ◌<◌, ltb, eqb, length};
ghost use Rattle.sequences.specs.Tabulate.{all_below};
ghost use Rattle.meaning.specs.Bytes.{u16_at};
ghost use Rattle.meaning.specs.TableFiles.{row_at, verdict_of, verdict_byte, successor, no_successor};
ghost use Rattle.meaning.specs.Runs.{counts_fit};
ghost use Rattle.table_layout.specs.Masks.{Marked, MaskIn};

use events::{full_mask, width};
use meaning::Verdict;
use wire::{byte_at, u16_at};

// The place of a state's record, which for the number of states is the table's length.
pub fn row_at(signals: u8, state: u16) -> usize
    requires { signals ≤ 4 }
    ensures { (result ≡ row_at signals state) × (result < 4194304) }
{
    7 + usize::from(state) * (5 + 2 * width(signals))
}

// Whether the counts are a table's, and the bytes as many as that table has.
pub fn counts_fit(t: &[u8], signals: u8, states: u16) -> bool
    ensures { result ≡ counts_fit t.now signals states }
{
    (1..=4).contains(&signals) && (1..=256).contains(&states) && t.len() == row_at(signals, states)
}

// The verdict of a state. Past the bytes it is undecided.
pub fn verdict_at(t: &[u8], signals: u8, state: u16) -> Verdict
    requires { signals ≤ 4 }
    ensures { result ≡ verdict_of (verdict_byte t.now signals state) }
{
    match byte_at(t, row_at(signals, state) + 4) {
        1 => Verdict::Satisfied,
        2 => Verdict::Violated,
        3 => Verdict::Moot,
        _ => Verdict::Undecided,
    }
}

// The successor of a state for an event. Past the bytes it is 0.
pub fn successor_at(t: &[u8], signals: u8, state: u16, event: u8) -> u16
    requires { signals ≤ 4 }
    ensures { result ≡ successor t.now signals state event }
{
    u16_at(t, row_at(signals, state) + 5 + 2 * usize::from(event))
}

// ---- the successors of a row, within the bytes

// The number in two bytes that are there.
pub fn two_at(t: &[u8], i: usize) -> u16
    requires { i + 2 ≤ length t.now }
    ensures { result ≡ u16_at t.now i }
{
    u16::from_le_bytes([t[i], t[i + 1]])
}

// Whether all the successors from a place on, so many, are below a number.
pub fn all_below(t: &[u8], at: usize, events: usize, bound: u16) -> bool
    requires { (at < 4194400) × (events ≤ 16) × (at + 2 * events ≤ length t.now) }
    ensures { result ≡ all_below events (λ e. ltb (u16_at t.now (at + 2 * e)) bound) }
{
    for e in 0..events {
        if bound <= two_at(t, at + 2 * e) {
            return false;
        }
    }
    true
}

// ---- the events that can happen

// The mask of the events whose successor, from a place on, is not 65,535.
fn mask_at(t: &[u8], at: usize, events: usize) -> u16
    requires { (at < 4194400) × (events ≤ 16) × (at + 2 * events ≤ length t.now) }
    ensures { Marked events (λ e. not (eqb (u16_at t.now (at + 2 * e)) no_successor)) result }
{
    let mut mask = 0;
    for e in 0..events {
        if two_at(t, at + 2 * e) != 65535 {
            mask += 1 << e;
        }
    }
    mask
}

// The mask of the events that can happen, which the row of state 0 tells. In most tables all can, which is found
// faster.
pub fn possible_mask(t: &[u8], signals: u8) -> u16
    requires { (signals ≤ 4) × (row_at signals 1 ≤ length t.now) }
    ensures { MaskIn t.now signals result }
{
    let at = row_at(signals, 0) + 5;
    let events = width(signals);
    if all_below(t, at, events, 65535) {
        full_mask(signals)
    } else {
        mask_at(t, at, events)
    }
}
