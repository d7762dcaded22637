// Runs over bytes and counts in hand, whatever they are: what is read is tested, so that no answer but a refusal leaves
// the table.
#![tactic(auto)]

ghost use Rattle.std.specs.Prelude.{◌≡◌, [], ◌∷◌, ◌≤◌};
ghost use Rattle.meaning.specs.Runs.{ran_in, row_in};
ghost use Rattle.table_run.specs.Tables.{admission, shown_by};

use event_lists::first_bad;
use events::width;
use meaning::{Arrival, Refusal, StateRow};
use run_loop::{ended, ended_by_rows};
use run_parts::{decides_at, in_table, successors_of};
use table_file::content_fits;
use table_layout::{counts_fit, possible_mask, successor_at, verdict_at};

// Whether a run may start, or a row be read: 14 for counts that no table has, which those in a number that is no
// opening's, 0 and 0, are, and for bytes that are not as many as that table's; then 13 for a state that is none.
fn admit(t: &[u8], signals: u8, states: u16, state: u16) -> Result<(), Refusal>
    ensures { result ≡ admission t.now signals states state }
{
    if !counts_fit(t, signals, states) {
        Err(Refusal::WrongTable)
    } else if states <= state {
        Err(Refusal::WrongState)
    } else {
        Ok(())
    }
}

// ---- a list of events

// A run over bytes and counts: 14, 13 or 12 before it starts, and 14 where its way leaves the table.
pub fn run_in(
    t: &[u8],
    signals: u8,
    states: u16,
    state: u16,
    events: &[u8],
) -> Result<Arrival<u16>, Refusal>
    ensures { result ≡ ran_in t.now signals states state events.now }
{
    admit(t, signals, states, state)?;
    let mask = possible_mask(t, signals);
    if let Some(bad) = first_bad(mask, events) {
        return Err(Refusal::WrongEvent(bad));
    }
    // From so many events on it pays to copy the successors first.
    if 4096 <= events.len() {
        ended_by_rows(t, &[], signals, states, state, events)
    } else {
        ended(t, &[], signals, states, state, events)
    }
}

// ---- one event

// When the first verdict other than undecided was shown on a way of one event.
fn first_shown(t: &[u8], signals: u8, state: u16, to: u16) -> Option<usize>
    requires { signals ≤ 4 }
    ensures { result ≡ shown_by t.now signals state to }
{
    if decides_at(t, signals, state) {
        Some(0)
    } else if decides_at(t, signals, to) {
        Some(1)
    } else {
        None
    }
}

// A run over one event, with no list.
pub fn step_in(
    t: &[u8],
    signals: u8,
    states: u16,
    state: u16,
    event: u8,
) -> Result<Arrival<u16>, Refusal>
    ensures { result ≡ ran_in t.now signals states state (event ∷ []) }
{
    admit(t, signals, states, state)?;
    if width(signals) <= usize::from(event) || successor_at(t, signals, 0, event) == 65535 {
        return Err(Refusal::WrongEvent(0));
    }
    let to = successor_at(t, signals, state, event);
    if in_table(t, signals, states, state) && in_table(t, signals, states, to) {
        Ok(Arrival {
            state: to,
            verdict: verdict_at(t, signals, to),
            decided: first_shown(t, signals, state, to),
        })
    } else {
        Err(Refusal::WrongTable)
    }
}

// ---- one row

// The row of a state: 14 and 13 as for a run, and 14 where the row is none of a table.
pub fn row_in(t: &[u8], signals: u8, states: u16, state: u16) -> Result<StateRow, Refusal>
    ensures { result ≡ row_in t.now signals states state }
{
    admit(t, signals, states, state)?;
    let mask = possible_mask(t, signals);
    if content_fits(t, signals, states, mask, state) {
        Ok(StateRow {
            verdict: verdict_at(t, signals, state),
            successors: successors_of(t, signals, state),
        })
    } else {
        Err(Refusal::WrongTable)
    }
}
