// The least state that a round leaves with a state: states compared by their groups and their successors' groups, and
// found by slots, a hash table.
#![tactic(auto)]

ghost use Rattle.std.specs.Prelude.{◌≡◌, ◌+◌, ◌≤◌, ◌<◌};
ghost use Rattle.sequences.specs.Tabulate.{least_below};
ghost use Rattle.moore.specs.Grouping.{entry, leads, together, same_step};
ghost use Rattle.group_slots.specs.Groups.{unmasked, RowsBelow, Least};
ghost use Rattle.group_slots.specs.Slots.{slot_of, LeftBelow, InSlot};

// ---- of the rows of successors and the groups as arrays

// The successor of a state at an event.
fn successor(rows: &[[u8; 16]; 256], state: u8, event: usize) -> u8
    requires { event < 16 }
    ensures { result ≡ entry rows.now state event }
{
    rows[usize::from(state)][event]
}

// Whether two states are in one group.
pub fn joined(group: &[u8; 256], i: u8, j: u8) -> bool
    ensures { result ≡ together group.now i j }
{
    group[usize::from(i)] == group[usize::from(j)]
}

// Whether two states are in one group, and so are their successors at each event.
fn same_step(rows: &[[u8; 16]; 256], group: &[u8; 256], events: usize, j: u8, i: u8) -> bool
    requires { events ≤ 16 }
    ensures { result ≡ same_step (unmasked events) rows.now group.now j i }
{
    if !joined(group, j, i) {
        return false;
    }
    for e in 0..events {
        if !joined(group, successor(rows, j, e), successor(rows, i, e)) {
            return false;
        }
    }
    true
}

// The least state that a round leaves with a state. The search starts at the least of its group so far, before which
// none is in it: over all rounds it passes each state once at most, and compares once more a round.
fn least_same(rows: &[[u8; 16]; 256], group: &[u8; 256], events: usize, i: u8) -> u8
    requires events_bound { events ≤ 16 }
    requires least { Least (i + 1) group.now }
    ensures { result ≡ least_below i (λ j. same_step (unmasked events) rows.now group.now j i) }
{
    (group[usize::from(i)]..i)
        .find(|j| same_step(rows, group, events, *j, i))
        .unwrap_or(i)
}

// The same as `least_same`. `next` has it for the states before i; j is the last of these that has the slot of i, or
// 0: then none has it, unless state 0 does.
pub fn least_by_slot(
    rows: &[[u8; 16]; 256],
    group: &[u8; 256],
    events: usize,
    next: &[u8; 256],
    j: u8,
    i: u8,
) -> u8
    requires events_bound { events ≤ 16 }
    requires least { Least (i + 1) group.now }
    requires left_below { LeftBelow i events rows.now group.now next.now × InSlot i events rows.now group.now j }
    ensures { result ≡ least_below i (λ j. same_step (unmasked events) rows.now group.now j i) }
{
    if i == 0 {
        return 0;
    }
    if same_step(rows, group, events, j, i) {
        return next[usize::from(j)];
    }
    if j == 0 {
        return i;
    }
    least_same(rows, group, events, i)
}

// ---- of a machine

// The successors of a machine's states at its events, each of which can happen.
#[derive(Clone, Copy)]
pub struct Successors<'a> {
    pub rows: &'a [[u8; 16]; 256],
    pub states: usize,
    pub events: usize,
    pub ghost few_states: { states ≤ 256 },
    pub ghost few_events: { events ≤ 16 },
    pub ghost inside: { RowsBelow states (unmasked events) states rows.now },
}

impl Successors<'_> {
    // The successor of a state at an event.
    pub fn at(&self, state: u8, event: usize) -> u8
        requires { event < 16 }
        ensures { result ≡ entry self.now.rows.now state event }
    {
        successor(self.rows, state, event)
    }
}

// The states of a machine in groups: for each the least of its group.
#[derive(Clone, Copy)]
pub struct Grouped<'a> {
    pub successors: Successors<'a>,
    pub group: &'a [u8; 256],
    pub ghost least: { Least successors.states group.now },
}

impl Grouped<'_> {
    // Whether a state is the least of its group.
    pub fn leads(&self, i: u8) -> bool
        ensures { result ≡ leads self.now.group.now i }
    {
        self.group[usize::from(i)] == i
    }

    // Whether two states are in one group.
    pub fn joined(&self, i: u8, j: u8) -> bool
        ensures { result ≡ together self.now.group.now i j }
    {
        joined(self.group, i, j)
    }

    // The slot of a state in a round, by its group and those of its successors: states that a round leaves together
    // have the same slot.
    pub fn slot_of(&self, i: u8) -> usize
        ensures { let s = self.now.successors in
            (result ≡ slot_of s.events s.rows.now self.now.group.now i) × (result < 1024) }
    {
        let mut slot = usize::from(self.group[usize::from(i)]);
        for e in 0..self.successors.events {
            let to = self.successors.at(i, e);
            slot = (slot * 5 + usize::from(self.group[usize::from(to)])) % 1024;
        }
        slot
    }

    // The least state that a round leaves with a state. `next` has it for the states before i; j is the last of these
    // that has the slot of i, or 0: then none has it, unless state 0 does.
    pub fn least_by_slot(&self, next: &[u8; 256], j: u8, i: u8) -> u8
        requires inside { i < self.now.successors.states }
        requires left_below { let s = self.now.successors in
            LeftBelow i s.events s.rows.now self.now.group.now next.now
            × InSlot i s.events s.rows.now self.now.group.now j }
        ensures { let s = self.now.successors in
            result ≡ least_below i (λ j. same_step (unmasked s.events) s.rows.now self.now.group.now j i) }
    {
        let s = &self.successors;
        least_by_slot(s.rows, self.group, s.events, next, j, i)
    }
}
