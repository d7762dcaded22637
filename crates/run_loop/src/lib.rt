// The loop of a run, which tests each state on the way.
#![tactic(auto)]

ghost use Rattle.std.specs.Prelude.{◌≡◌, ◌≤◌, length};
ghost use Rattle.event_lists.specs.Bounds.{NoneAbove};
ghost use Rattle.run_parts.specs.Parts.{Copied};
ghost use Rattle.run_loop.specs.Ends.{noted_of, end_in};

use meaning::{Arrival, Refusal};
use run_parts::{decides_at, fill_rows, in_table, successor_in};
use table_layout::verdict_at;

// When the first verdict other than undecided was shown, once the state after so many events is seen too.
fn noted(first: Option<usize>, shows: bool, count: usize) -> Option<usize>
    ensures { result ≡ noted_of first shows count }
{
    match first {
        None if shows => Some(count),
        _ => first,
    }
}

// Where a run ends, by the copied rows where they have a successor; 14 where its way leaves the table.
pub fn ended(
    t: &[u8],
    rows: &[u16],
    signals: u8,
    states: u16,
    state: u16,
    events: &[u8],
) -> Result<Arrival<u16>, Refusal>
    requires signals_bound { (signals ≤ 4) × NoneAbove (length events.now) events.now 15 }
    requires copied { Copied t.now signals rows.now }
    ensures { result ≡ end_in t.now signals states state events.now }
{
    let mut first = None;
    let mut s = state;
    for (i, event) in events.iter().enumerate() {
        if !in_table(t, signals, states, s) {
            return Err(Refusal::WrongTable);
        }
        first = noted(first, decides_at(t, signals, s), i);
        s = successor_in(t, rows, signals, s, *event);
    }
    if in_table(t, signals, states, s) {
        Ok(Arrival {
            state: s,
            verdict: verdict_at(t, signals, s),
            decided: noted(first, decides_at(t, signals, s), events.len()),
        })
    } else {
        Err(Refusal::WrongTable)
    }
}

// The same, with the rows copied first where there are none. It stays a function of its own, so that a run that copies no
// rows has no room for them on the stack.
#[inline(never)]
pub fn ended_by_rows(
    t: &[u8],
    rows: &[u16],
    signals: u8,
    states: u16,
    state: u16,
    events: &[u8],
) -> Result<Arrival<u16>, Refusal>
    requires signals_bound { (signals ≤ 4) × NoneAbove (length events.now) events.now 15 }
    requires copied { Copied t.now signals rows.now }
    ensures { result ≡ end_in t.now signals states state events.now }
{
    if rows.is_empty() {
        let mut made = [0; 4096];
        fill_rows(t, signals, &mut made);
        ended(t, &made, signals, states, state, events)
    } else {
        ended(t, rows, signals, states, state, events)
    }
}
