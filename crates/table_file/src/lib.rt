// The check of a table file: whether its bytes have the form of a table.
#![tactic(auto)]

ghost use Rattle.std.specs.Prelude.{◌≡◌, true, ◌+◌, ◌*◌, ◌^◌, ◌≤◌, ◌<◌, eqb, length};
ghost use Rattle.sequences.specs.Tabulate.{every, all_below};
ghost use Rattle.meaning.specs.Bytes.{bit, u16_at};
ghost use Rattle.meaning.specs.TableFiles.{row_at, content_tests, row_tests, header_tests, checked_of};
ghost use Rattle.meaning.specs.Runs.{counts_fit};
ghost use Rattle.table_layout.specs.Masks.{MaskIn};
ghost use Rattle.table_file.specs.Successors.{fits_by};

use events::{can_happen, full_mask, width};
use meaning::{Counts, Refusal};
use table_layout::{all_below, counts_fit, possible_mask, row_at, two_at};
use wire::{byte_at, u16_at};

// Whether the first record is a table's, and the bytes are as many as it says.
fn header_fits(t: &[u8]) -> bool
    ensures { result ≡ every (header_tests t.now) }
{
    7 <= t.len()
        && u16_at(t, 0) == 5
        && u16_at(t, 2) == 512
        && counts_fit(t, byte_at(t, 4), u16_at(t, 5))
}

// Whether a successor is a state, where its event can happen, and 65,535 where it cannot.
fn successor_fits(to: u16, states: u16, possible: bool) -> bool
    ensures { result ≡ fits_by possible states to }
{
    if possible { to < states } else { to == 65535 }
}

// Whether all the successors from a place on, so many, fit, by the mask of the events that can happen.
fn each_fits(t: &[u8], at: usize, events: usize, states: u16, mask: u16) -> bool
    requires { (at < 4194400) × (events ≤ 16) × (at + 2 * events ≤ length t.now) }
    ensures { result ≡ all_below events (λ e. fits_by (eqb (bit e mask) 1) states (u16_at t.now (at + 2 * e))) }
{
    for e in 0..events {
        if !successor_fits(two_at(t, at + 2 * e), states, can_happen(mask, e)) {
            return false;
        }
    }
    true
}

// Whether all the successors from a place on fit, which where every event can happen is found faster.
fn successors_fit(t: &[u8], at: usize, signals: u8, states: u16, mask: u16) -> bool
    requires { (at < 4194400) × (signals ≤ 4) × (at + 2 * 2 ^ signals ≤ length t.now) }
    ensures { result ≡ all_below (2 ^ signals) (λ e. fits_by (eqb (bit e mask) 1) states (u16_at t.now (at + 2 * e))) }
{
    let events = width(signals);
    if mask == full_mask(signals) {
        all_below(t, at, events, states)
    } else {
        each_fits(t, at, events, states, mask)
    }
}

// Whether a state's verdict byte is one of the four, an event is left, and all its successors fit. The mask is that
// of the table's events.
pub fn content_fits(t: &[u8], signals: u8, states: u16, mask: u16, state: u16) -> bool
    requires { (signals ≤ 4) × (row_at signals (state + 1) ≤ length t.now) × MaskIn t.now signals mask }
    ensures { result ≡ every (content_tests t.now signals states state) }
{
    let at = row_at(signals, state);
    byte_at(t, at + 4) <= 3 && mask != 0 && successors_fit(t, at + 5, signals, states, mask)
}

// Whether a state's record is one of a table of so many signals and states.
fn row_fits(t: &[u8], signals: u8, states: u16, mask: u16, state: u16) -> bool
    requires { (signals ≤ 4) × (row_at signals (state + 1) ≤ length t.now) × MaskIn t.now signals mask }
    ensures { result ≡ every (row_tests t.now signals states state) }
{
    let at = row_at(signals, state);
    usize::from(u16_at(t, at)) == 3 + 2 * width(signals)
        && u16_at(t, at + 2) == 513
        && content_fits(t, signals, states, mask, state)
}

// Whether the records of all states are.
fn rows_fit(t: &[u8], signals: u8, states: u16) -> bool
    requires { counts_fit t.now signals states ≡ true }
    ensures { result ≡ all_below states (λ s. every (row_tests t.now signals states s)) }
{
    let mask = possible_mask(t, signals);
    for s in 0..states {
        if !row_fits(t, signals, states, mask, s) {
            return false;
        }
    }
    true
}

// Whether the bytes are a table's, with its counts; refused by 14 where they are not.
pub fn check(t: &[u8]) -> Result<Counts, Refusal>
    ensures { result ≡ checked_of t.now }
{
    let signals = byte_at(t, 4);
    let states = u16_at(t, 5);
    if header_fits(t) && rows_fit(t, signals, states) {
        Ok(Counts { signals, states })
    } else {
        Err(Refusal::WrongTable)
    }
}
