// The labels that some continuation has: the core, and what leads to it along the edges between labels.
#![tactic(auto)]

ghost use Rattle.std.specs.Prelude.{◌≡◌, false, ◌≤◌, ◌<◌, get_or};
ghost use Rattle.meaning.specs.Traces.{masked};
ghost use Rattle.ltl.specs.Sets.{on};
ghost use Rattle.ltl.specs.Realizable.{all_of, realizable};
ghost use Rattle.ltl.specs.Residuals.{before};
ghost use Rattle.ltl.specs.Keys.{look};
ghost use Rattle.valuation.specs.Entries.{Entries};
ghost use Rattle.relations.specs.Relations.{entry, label_at, Reaches};
ghost use Rattle.realizability.specs.Core.{both_ways, component_by, Within, within_component, Gathered, AllGathered, core_in, core_by, to_core_by, realizable_by};

use events::mask_has;
use node_words::holds;
use relations::{Relation, Tables};

// ---- components: labels that all lead to each other

// Whether x leads to c and back.
fn both_ways(relation: &Relation, x: usize, c: usize) -> bool
    requires { (x < 128) × (c < 128) }
    ensures { result ≡ both_ways (entry relation.now.rows) x c }
{
    relation.has(x, c) && relation.has(c, x)
}

// The component of c by its first label. One that leads nowhere is its own.
fn component(relation: &Relation, c: usize) -> usize
    requires { c < 128 }
    ensures { result ≡ component_by (entry relation.now.rows) c }
{
    if relation.is_empty(c) {
        return c;
    }
    for x in 0..c {
        if both_ways(relation, x, c) {
            return x;
        }
    }
    c
}

// The component of each label, and for each component the temporal nodes to which its own edges are fair.
#[derive(Clone, Copy)]
struct Components {
    of: [usize; 128],
    fair: [u8; 128],
}

impl Components {
    // The components of a relation, with what the edges of the events that can happen are fair to.
    fn new(relation: &Relation, tables: &Tables<'_>) -> Components
        ensures of_labels { Entries tables.now.labels (component_by (entry relation.now.rows)) 0 result.of }
        ensures gathered { AllGathered (masked tables.now.events tables.now.mask) tables.now.labels (within_component result.of (label_at tables.now.labels tables.now.profiles.now) (look tables.now.fairs.now)) result.fair }
    {
        let mut components = Components {
            of: [0; 128],
            fair: [0; 128],
        };
        for c in 0..tables.labels {
            components.of[c] = component(relation, c);
        }
        for e in 0..tables.events {
            if mask_has(tables.mask, e) {
                components.gather_event(tables, e);
            }
        }
        components
    }

    // Adds what the edges by e give to their component, where both their labels are in it.
    fn gather_event(&mut self, tables: &Tables<'_>, e: usize)
        requires e_bound { e < 16 }
        requires within { Within tables.now.labels self.old.of }
        ensures of_labels { self.new.of ≡ self.old.of }
        ensures gathered { Gathered tables.now.labels tables.now.labels (within_component self.old.of (label_at tables.now.labels tables.now.profiles.now) (look tables.now.fairs.now) e) self.old.fair self.new.fair }
    {
        for y in 0..tables.labels {
            let p = self.of[y];
            let add = if self.of[tables.label_before(e, y)] == p {
                tables.fairs[e][y]
            } else {
                0
            };
            self.fair[p] |= add;
        }
    }

    // Whether c is on a closed walk, and its component is fair to all m temporal nodes.
    fn is_core(&self, relation: &Relation, m: u8, c: usize) -> bool
        requires { (c < 128) × (get_or self.now.of c 0 < 128) }
        ensures { result ≡ core_in m (entry relation.now.rows) self.now.of self.now.fair c }
    {
        relation.has(c, c) && all_of(m, self.fair[self.of[c]])
    }
}

// Whether the first m temporal nodes are all in a set.
fn all_of(m: u8, set: u8) -> bool
    ensures { result ≡ all_of m set }
{
    for j in 0..m {
        if !holds(u64::from(set), j) {
            return false;
        }
    }
    true
}

// ---- the core, and what leads to it

// The labels on a closed walk that is fair to every temporal node.
fn core_row(relation: &Relation, tables: &Tables<'_>) -> [bool; 128]
    requires { Reaches (masked tables.now.events tables.now.mask) tables.now.labels tables.now.profiles.now (entry relation.now.rows) }
    ensures { Entries tables.now.labels (core_by tables.now.temporals (masked tables.now.events tables.now.mask) tables.now.labels (entry relation.now.rows) (label_at tables.now.labels tables.now.profiles.now) (look tables.now.fairs.now)) false result }
{
    let components = Components::new(relation, tables);
    let mut core = [false; 128];
    for c in 0..tables.labels {
        core[c] = components.is_core(relation, tables.temporals, c);
    }
    core
}

// Whether c is in the core and x leads there.
fn leads_to(relation: &Relation, core: &[bool; 128], x: usize, c: usize) -> bool
    requires { (x < 128) × (c < 128) }
    ensures { result ≡ to_core_by (entry relation.now.rows) (λ i. get_or core.now i false) x c }
{
    core[c] && (x == c || relation.has(x, c))
}

// Whether x leads to the core; where it leads nowhere, whether it is there.
fn leads_to_core(relation: &Relation, core: &[bool; 128], labels: usize, x: usize) -> bool
    requires { (labels ≤ 128) × (x < labels) }
    ensures { result ≡ realizable_by labels (entry relation.now.rows) (λ i. get_or core.now i false) x }
{
    if relation.is_empty(x) {
        return core[x];
    }
    for c in 0..labels {
        if leads_to(relation, core, x, c) {
            return true;
        }
    }
    false
}

fn leading_row(relation: &Relation, core: &[bool; 128], labels: usize) -> [bool; 128]
    requires { labels ≤ 128 }
    ensures { Entries labels (realizable_by labels (entry relation.now.rows) (λ i. get_or core.now i false)) false result }
{
    let mut leading = [false; 128];
    for x in 0..labels {
        leading[x] = leads_to_core(relation, core, labels, x);
    }
    leading
}

// The labels that some continuation has: those from which edges lead to the core.
pub fn realizable_labels(tables: &Tables<'_>) -> [bool; 128]
    ensures { Entries tables.now.labels (on (realizable (masked tables.now.events tables.now.mask) tables.now.labels (before tables.now.labels (look tables.now.profiles.now)) (look tables.now.fairs.now) tables.now.temporals)) false result }
{
    let mut relation = Relation::of_edges(tables);
    relation.close(tables.labels);
    let core = core_row(&relation, tables);
    leading_row(&relation, &core, tables.labels)
}
