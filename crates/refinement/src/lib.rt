// Rounds that split the groups of a machine's states until none splits: those left together are those that no word
// tells apart. A group is named by its least state. The rounds take every event as one that can happen; those that
// cannot are led to one state first.
#![tactic(auto)]

ghost use Rattle.std.specs.Prelude.{◌≡◌, ◌≤◌, ◌<◌, take, eqb};
ghost use Rattle.sequences.specs.Tabulate.{least_below};
ghost use Rattle.meaning.specs.Bytes.{bit};
ghost use Rattle.meaning.specs.Traces.{masked};
ghost use Rattle.moore.specs.Grouping.{together, first_groups, next_groups, rounds, grouping};
ghost use Rattle.group_slots.specs.Groups.{unmasked, Least};
ghost use Rattle.refinement.specs.Rows.{Column, Cleared};

use events::mask_has;
use group_slots::{Grouped, Successors};

// One round: each state with the least that is left with it. A slot has the last state so far that belongs there, or 0.
fn round(grouped: &Grouped<'_>) -> [u8; 256]
    ensures { let s = grouped.now.successors in
        take s.states result ≡ next_groups (unmasked s.events) s.states s.rows.now grouped.now.group.now }
{
    let mut next = [0u8; 256];
    let mut slots = [0u8; 1024];
    for i in 0..grouped.successors.states {
        let state = i as u8;
        let slot = grouped.slot_of(state);
        let least = grouped.least_by_slot(&next, slots[slot], state);
        next[i] = least;
        slots[slot] = state;
    }
    next
}

// Rounds until one changes nothing; as many as there are states are enough.
fn refined(successors: &Successors<'_>, first: [u8; 256]) -> [u8; 256]
    requires { Least successors.now.states first }
    ensures { let s = successors.now in
        take s.states result ≡ rounds s.states (unmasked s.events) s.states s.rows.now (take s.states first) }
{
    let states = successors.states;
    let mut group = first;
    for done in 0..states {
        let next = round(&Grouped {
            successors: *successors,
            group: &group,
        });
        if next[..states] == group[..states] {
            return group;
        }
        group = next;
    }
    group
}

// The least state that has a state's class.
fn least_of_class(classes: &[u8; 256], i: u8) -> u8
    ensures { result ≡ least_below i (λ k. together classes.now k i) }
{
    let class = classes[usize::from(i)];
    (0..i)
        .find(|k| classes[usize::from(*k)] == class)
        .unwrap_or(i)
}

// Each state with the least of its class.
fn first_groups(classes: &[u8; 256], states: usize) -> [u8; 256]
    requires { states ≤ 256 }
    ensures { take states result ≡ first_groups states classes.now }
{
    let mut group = [0u8; 256];
    for i in 0..states {
        group[i] = least_of_class(classes, i as u8);
    }
    group
}

// Leads an event from each of the first states to state 0, unless it can happen.
fn clear_event(rows: &mut [[u8; 16]; 256], states: usize, mask: u16, event: usize)
    requires { (states ≤ 256) × (event < 16) }
    ensures { Column (eqb (bit event mask) 1) states event rows.old rows.new }
{
    if mask_has(mask, event) {
        return;
    }
    for s in 0..states {
        rows[s][event] = 0;
    }
}

// Leads each event that cannot happen to state 0: where all states go on to one, none are told apart. So the groups of
// these rows over all events are those of the machine over the events that can happen, and the rounds need not ask the
// mask at each event of each state.
pub fn clear_impossible(rows: &mut [[u8; 16]; 256], states: usize, events: usize, mask: u16)
    requires { (events ≤ 16) × (states ≤ 256) }
    ensures { Cleared (masked events mask) events states rows.old rows.new }
{
    for e in 0..events {
        clear_event(rows, states, mask, e);
    }
}

// For each state the least of its group, where every event can happen.
pub fn groups(successors: &Successors<'_>, classes: &[u8; 256]) -> [u8; 256]
    ensures { let s = successors.now in
        take s.states result ≡ grouping (unmasked s.events) s.states s.rows.now classes.now }
{
    refined(successors, first_groups(classes, successors.states))
}
