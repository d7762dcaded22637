// Sets of a table's states: the start alone, the states that one of several events leads to, and whether all show one
// verdict.
#![tactic(auto)]

ghost use Rattle.std.specs.Prelude.{◌≡◌, true, false, ◌≤◌, replicate, set};
ghost use Rattle.state_sets.specs.Sets.{Spread, Moved, all_show};

use recorded_events::Choices;
use run_parts::in_table;
use table_layout::{row_at, successor_at};
use wire::byte_at;

// State 0 alone.
pub fn start() -> [bool; 256]
    ensures { result ≡ set (replicate 256 false) 0 true }
{
    let mut only = [false; 256];
    only[0] = true;
    only
}

// Adds the successors of a state for the events chosen. Answers whether each of them is in the table, and stops at the
// first that is not.
fn spread(
    t: &[u8],
    signals: u8,
    states: u16,
    state: u16,
    choices: &Choices,
    to: &mut [bool; 256],
) -> bool
    requires { (signals ≤ 4) × (states ≤ 256) }
    ensures { Spread t.now signals states choices.now.count choices.now.events state to.old to.new result }
{
    for event in &choices.events[..choices.count] {
        let next = successor_at(t, signals, state, *event);
        if !in_table(t, signals, states, next) {
            return false;
        }
        to[usize::from(next)] = true;
    }
    true
}

// The states to which one of the events chosen leads from a member of a set. Answers whether each of them is in the
// table.
pub fn advance(
    t: &[u8],
    signals: u8,
    states: u16,
    from: &[bool; 256],
    choices: &Choices,
    to: &mut [bool; 256],
) -> bool
    requires { (signals ≤ 4) × (states ≤ 256) }
    ensures { Moved t.now signals states choices.now.count choices.now.events states from.now to.new result }
{
    *to = [false; 256];
    for member in 0..states {
        if from[usize::from(member)] && !spread(t, signals, states, member, choices, to) {
            return false;
        }
    }
    true
}

// Whether all members have a verdict byte.
pub fn all_show(t: &[u8], signals: u8, states: u16, members: &[bool; 256], verdict: u8) -> bool
    requires { (signals ≤ 4) × (states ≤ 256) }
    ensures { result ≡ all_show t.now signals states members.now verdict }
{
    for state in 0..states {
        if members[usize::from(state)] && byte_at(t, row_at(signals, state) + 4) != verdict {
            return false;
        }
    }
    true
}
