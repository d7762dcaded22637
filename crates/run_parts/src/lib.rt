// What a run reads: a state's record, and the successors copied into rows.
#![tactic(auto)]

ghost use Rattle.std.specs.Prelude.{◌≡◌, ◌++◌, ◌^◌, ◌≤◌, length, drop, replicate};
ghost use Rattle.sequences.specs.Tabulate.{tabulate};
ghost use Rattle.meaning.specs.TableFiles.{successor};
ghost use Rattle.meaning.specs.Runs.{in_table};
ghost use Rattle.run_parts.specs.Parts.{Copied, decides_at};

use events::width;
use table_layout::{row_at, successor_at, verdict_at};
use wire::{byte_at, u16_at};

// ---- a state's record

// Whether a number is that of a state, and its verdict byte one of the four.
pub fn in_table(t: &[u8], signals: u8, states: u16, state: u16) -> bool
    requires { signals ≤ 4 }
    ensures { result ≡ in_table t.now signals states state }
{
    state < states && byte_at(t, row_at(signals, state) + 4) <= 3
}

// Whether a state shows a verdict other than undecided.
pub fn decides_at(t: &[u8], signals: u8, state: u16) -> bool
    requires { signals ≤ 4 }
    ensures { result ≡ decides_at t.now signals state }
{
    verdict_at(t, signals, state).is_decided()
}

// The successors of a state for each event, and 0 past the last.
pub fn successors_of(t: &[u8], signals: u8, state: u16) -> [u16; 16]
    requires { signals ≤ 4 }
    ensures { result ≡ tabulate (2 ^ signals) (successor t.now signals state) ++ drop (2 ^ signals) (replicate 16 0) }
{
    let at = row_at(signals, state) + 5;
    let mut row = [0; 16];
    for e in 0..width(signals) {
        row[e] = u16_at(t, at + 2 * e);
    }
    row
}

// ---- copied rows

// The successors of all the states that a table can have, copied out of the bytes, 16 to a state: a long run finds them
// faster here.
pub fn fill_rows(t: &[u8], signals: u8, rows: &mut [u16; 4096])
    requires { signals ≤ 4 }
    ensures { Copied t.now signals rows.new × (length rows.new ≡ 4096) }
{
    for (k, to) in rows.iter_mut().enumerate() {
        *to = successor_at(t, signals, (k / 16) as u16, (k % 16) as u8);
    }
}

// The successor of a state for an event, from the copied rows where they have it.
pub fn successor_in(t: &[u8], rows: &[u16], signals: u8, state: u16, event: u8) -> u16
    requires signals_bound { (signals ≤ 4) × (event ≤ 15) }
    requires copied { Copied t.now signals rows.now }
    ensures { result ≡ successor t.now signals state event }
{
    match rows.get(16 * usize::from(state) + usize::from(event)) {
        Some(to) => *to,
        None => successor_at(t, signals, state, event),
    }
}
