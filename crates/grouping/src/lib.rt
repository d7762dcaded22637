// Makes of a machine the smallest one that shows the same: a state for each group of states that no word tells apart.
#![tactic(auto)]

ghost use Rattle.std.specs.Prelude.{◌≡◌, true, cond, ◌++◌, ◌^◌, ◌≤◌, ◌<◌, length, get_or, take, drop, eqb};
ghost use Rattle.sequences.specs.Tabulate.{tabulate};
ghost use Rattle.meaning.specs.Bytes.{bit};
ghost use Rattle.meaning.specs.Traces.{masked};
ghost use Rattle.moore.specs.Counting.{count_below};
ghost use Rattle.moore.specs.Grouping.{Machine, entry, together, leads};
ghost use Rattle.moore.specs.Quotient.{number, closed};
ghost use Rattle.group_slots.specs.Groups.{unmasked};
ghost use Rattle.grouping.specs.Machines.{Leaders, verdict_at, row_at};
ghost use Rattle.grouping.specs.Reduction.{Reduction};

use events::{mask_has, width};
use group_slots::{Grouped, Successors};
use refinement::{clear_impossible, groups};

// How many groups have a least state below each state.
fn ranks(grouped: &Grouped<'_>) -> [u8; 256]
    ensures { let n = grouped.now.successors.states in
        take n result ≡ tabulate n (λ i. count_below i (leads grouped.now.group.now)) }
{
    let mut rank = [0u8; 256];
    let mut below: usize = 0;
    for i in 0..grouped.successors.states {
        rank[i] = below as u8;
        below += usize::from(grouped.leads(i as u8));
    }
    rank
}

// The number of the group of each state: how many groups have a lower least state.
fn numbers(grouped: &Grouped<'_>) -> [u8; 256]
    ensures { let n = grouped.now.successors.states in
        take n result ≡ tabulate n (number grouped.now.group.now) }
{
    let rank = ranks(grouped);
    let mut out = [0u8; 256];
    for i in 0..grouped.successors.states {
        out[i] = rank[usize::from(grouped.group[i])];
    }
    out
}

// Lists the least states of the groups: so many, from the front of the array.
fn list_leaders(grouped: &Grouped<'_>, least: &mut [u8; 256]) -> usize
    ensures listed { Leaders grouped.now.successors.states grouped.now.group.now result least.new }
    ensures few { result ≤ grouped.now.successors.states }
{
    let mut count: usize = 0;
    for i in 0..grouped.successors.states {
        least[count] = i as u8;
        count += usize::from(grouped.leads(i as u8));
    }
    count
}

// What the verdict byte of a group follows from. Classes are 0 (neither), 1 (satisfied) or 2 (violated).
#[derive(Clone, Copy)]
struct Judged<'a> {
    grouped: &'a Grouped<'a>,
    classes: &'a [u8; 256],
    mask: u16,
}

impl Judged<'_> {
    // Whether an event leads from a state back to its own group, or cannot happen.
    fn stays(&self, s: u8, e: usize) -> bool
        requires { e < 16 }
        ensures { let g = self.now.grouped.now in
            let back = together g.group.now (entry g.successors.rows.now s e) s in
            result ≡ cond (eqb (bit e self.now.mask) 1) back true }
    {
        self.grouped.joined(self.grouped.successors.at(s, e), s) || !mask_has(self.mask, e)
    }

    // Whether every event that can happen leads from a state back to its own group.
    fn is_closed(&self, s: u8) -> bool
        ensures { let g = self.now.grouped.now in
            result ≡ closed (masked g.successors.events self.now.mask) g.successors.rows.now g.group.now s }
    {
        (0..self.grouped.successors.events).all(|e| self.stays(s, e))
    }

    // The verdict byte of a group, by its least state.
    fn verdict_of(&self, s: u8) -> u8
        ensures { let g = self.now.grouped.now in
            let possible = masked g.successors.events self.now.mask in
            result ≡ verdict_at possible g.successors.rows.now self.now.classes.now g.group.now s }
    {
        let class = self.classes[usize::from(s)];
        if class != 0 {
            return class;
        }
        if self.is_closed(s) { 3 } else { 0 }
    }

    // Stores the verdict byte and the row of each group, by its least state.
    fn store(
        &self,
        numbers: &[u8; 256],
        leaders: &[u8],
        verdicts: &mut [u8; 256],
        to: &mut [[u8; 16]; 256],
    )
        requires { length leaders.now ≤ 256 }
        ensures verdict { let g = self.now.grouped.now in
            let possible = masked g.successors.events self.now.mask in
            let of = verdict_at possible g.successors.rows.now self.now.classes.now g.group.now in
            let count = length leaders.now in
            verdicts.new ≡ tabulate count (λ q. of (get_or leaders.now q 0)) ++ drop count verdicts.old }
        ensures row { let s = self.now.grouped.now.successors in
            let of = row_at (unmasked s.events) s.rows.now numbers.now in
            let count = length leaders.now in
            to.new ≡ tabulate count (λ q. of (get_or leaders.now q 0)) ++ drop count to.old }
    {
        for (q, s) in leaders.iter().enumerate() {
            verdicts[q] = self.verdict_of(*s);
        }
        for (r, s) in leaders.iter().enumerate() {
            to[r] = row_of(&self.grouped.successors, numbers, *s);
        }
    }
}

// The row of a group, by its least state: the numbers of the groups that its successors are in.
fn row_of(successors: &Successors<'_>, numbers: &[u8; 256], s: u8) -> [u8; 16]
    ensures { result ≡ row_at (unmasked successors.now.events) successors.now.rows.now numbers.now s }
{
    let mut row = [0u8; 16];
    for e in 0..successors.events {
        row[e] = numbers[usize::from(successors.at(s, e))];
    }
    row
}

// Makes of a machine the smallest one that shows the same: how many states it has, and the verdict byte and the row of
// successors of each, from the front of the arrays. Events that cannot happen are led to state 0 first: there they tell
// no states apart, and in the rows they have 0, the number of its group.
#[inline(never)]
pub fn reduce(
    signals: u8,
    mask: u16,
    states: u16,
    classes: &[u8; 256],
    mut rows: [[u8; 16]; 256],
    verdicts: &mut [u8; 256],
    to: &mut [[u8; 16]; 256],
) -> u16
    requires signals_bound { (signals ≤ 4) × (states ≤ 256) }
    requires machine { Machine (masked (2 ^ signals) mask) states rows classes.now }
    ensures { let possible = masked (2 ^ signals) mask in
        Reduction possible states rows classes.now verdicts.old to.old result verdicts.new to.new }
{
    let events = width(signals);
    let states = usize::from(states);
    clear_impossible(&mut rows, states, events, mask);
    let successors = Successors {
        rows: &rows,
        states,
        events,
    };
    let group = groups(&successors, classes);
    let grouped = Grouped {
        successors,
        group: &group,
    };
    let numbers = numbers(&grouped);
    let mut least = [0u8; 256];
    let count = list_leaders(&grouped, &mut least);
    let judged = Judged {
        grouped: &grouped,
        classes,
        mask,
    };
    judged.store(&numbers, &least[..count], verdicts, to);
    count as u16
}
