// The values of a rule's nodes at an event before a label, and the rows of profiles and of fairness that they give.
// 64 labels are valued at once: bit l of a word is for label l of the lower or of the upper half.
#![tactic(auto)]

ghost use Rattle.std.specs.Prelude.{◌≡◌, ℕ, ◌+◌, ◌≤◌, ◌<◌, get_or, ◌∷◌, []};
ghost use Rattle.ltl.specs.Nodes.{split, splits, temporals};
ghost use Rattle.node_words.specs.Words.{label_of};
ghost use Rattle.valuation.specs.Columns.{Advanced, Planes, Byte};
ghost use Rattle.valuation.specs.Valued.{RuleNodes, profile_at, fairs_at};
ghost use Rattle.valuation.specs.Entries.{Entries, Table};

use meaning::Node;
use node_words::{holds, label_word, node_words};

// The nodes of a rule that can be valued: of 1 to 64 at most 7 are temporal.
#[derive(Clone, Copy)]
pub struct Rule<'a> {
    pub nodes: &'a [Node],
    ghost valuable: { RuleNodes nodes.now },
}

// ---- columns: a word for each node, and for each temporal one

// The valuations of 64 labels: a word for the value of each node, and for each of the temporal nodes so far a word of
// their bits of the label and one of whether they are fair.
#[derive(Clone, Copy)]
struct Columns {
    values: [u64; 64],
    label: [u64; 8],
    fairs: [u64; 8],
    temporals: u8,
}

impl Columns {
    // What an earlier node gave; a later one is false.
    fn operand(&self, a: u8) -> u64
        ensures { result ≡ get_or self.now.values a 0 }
    {
        if a < 64 {
            self.values[usize::from(a)]
        } else {
            0
        }
    }

    // One node more, the node i.
    fn add(&mut self, event: u8, high: bool, i: usize, n: Node)
        requires { (i < 64) × (self.old.temporals + temporals (split n ∷ []) ≤ 7) }
        ensures { Advanced event high i n self.old self.new }
    {
        let m = self.temporals;
        let next = label_word(high, m);
        let words = node_words(event, self.operand(n.a), self.operand(n.b), next, n);
        self.values[i] = words.value;
        if let Some(promise) = words.promise {
            self.label[usize::from(m)] = promise.label;
            self.fairs[usize::from(m)] = promise.fair;
            self.temporals = m + 1;
        }
    }
}

// The byte of label l.
fn byte_at(columns: &[u64; 8], l: u8) -> u8
    requires { l < 64 }
    ensures { Byte 8 columns.now l result }
{
    let mut byte = 0u8;
    for (j, column) in columns.iter().enumerate() {
        let bit = if holds(*column, l) { 1 << j } else { 0 };
        byte |= bit;
    }
    byte
}

impl Rule<'_> {
    // All nodes. The value of the last one, the rule itself, stands on top of the label.
    fn columns(&self, event: u8, high: bool) -> Columns
        ensures temporals_value { result.temporals ≡ temporals (splits self.now.nodes.now) }
        ensures profiles { Planes (λ l. profile_at self.now.nodes.now event (label_of high l)) result.label }
        ensures fairs { Planes (λ l. fairs_at self.now.nodes.now event (label_of high l)) result.fairs }
    {
        let mut columns = Columns {
            values: [0; 64],
            label: [0; 8],
            fairs: [0; 8],
            temporals: 0,
        };
        for (i, n) in self.nodes.iter().enumerate() {
            columns.add(event, high, i, *n);
        }
        columns.label[usize::from(columns.temporals)] = columns.values[self.nodes.len() - 1];
        columns
    }

    // How many of the nodes are temporal.
    pub fn temporal_count(&self) -> u8
        ensures { result ≡ temporals (splits self.now.nodes.now) }
    {
        self.columns(0, false).temporals
    }
}

// ---- rows: a byte for each label

// How many labels come before the half.
fn first_of(high: bool) -> usize
    ensures { result ≡ label_of high 0 }
{
    if high { 64 } else { 0 }
}

// The profiles and the sets of fairness before each label.
#[derive(Clone, Copy)]
struct Rows {
    profiles: [u8; 128],
    fairs: [u8; 128],
}

impl Rows {
    // The entries of one half of the labels, from its first label to the label before `to`.
    fn fill_half(&mut self, rule: &Rule<'_>, event: u8, high: bool, to: usize)
        requires to_bound { (label_of high 0 ≤ to) × (to ≤ label_of high 0 + 64) × (to ≤ 128) }
        requires profiles { Entries (label_of high 0) (profile_at rule.now.nodes.now event) 0 self.old.profiles }
        requires fairs { Entries (label_of high 0) (fairs_at rule.now.nodes.now event) 0 self.old.fairs }
        ensures profiles_to { Entries to (profile_at rule.now.nodes.now event) 0 self.new.profiles }
        ensures fairs_to { Entries to (fairs_at rule.now.nodes.now event) 0 self.new.fairs }
    {
        let columns = rule.columns(event, high);
        let from = first_of(high);
        for y in from..to {
            let l = (y - from) as u8;
            self.profiles[y] = byte_at(&columns.label, l);
            self.fairs[y] = byte_at(&columns.fairs, l);
        }
    }
}

impl Rule<'_> {
    fn rows(&self, event: u8, labels: usize) -> Rows
        requires { labels ≤ 128 }
        ensures profiles { Entries labels (profile_at self.now.nodes.now event) 0 result.profiles }
        ensures fairs { Entries labels (fairs_at self.now.nodes.now event) 0 result.fairs }
    {
        let mut rows = Rows {
            profiles: [0; 128],
            fairs: [0; 128],
        };
        if labels <= 64 {
            rows.fill_half(self, event, false, labels);
        } else {
            rows.fill_half(self, event, false, 64);
            rows.fill_half(self, event, true, labels);
        }
        rows
    }

    // The profiles and the sets of fairness by event and next label.
    pub fn tables(
        &self,
        events: usize,
        labels: usize,
        profiles: &mut [[u8; 128]; 16],
        fairs: &mut [[u8; 128]; 16],
    )
        requires { (events ≤ 16) × (labels ≤ 128) }
        ensures profiles { Table events labels (profile_at self.now.nodes.now) profiles.new }
        ensures fairs { Table events labels (fairs_at self.now.nodes.now) fairs.new }
    {
        for e in 0..events {
            let Rows {
                profiles: profile_row,
                fairs: fair_row,
            } = self.rows(e as u8, labels);
            profiles[e] = profile_row;
            fairs[e] = fair_row;
        }
    }
}
