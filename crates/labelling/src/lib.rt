// The tables of the residual system, computed into arrays.
#![tactic(auto)]

ghost use Rattle.std.specs.Prelude.{◌≡◌, List, ℕ, ◌^◌, ◌≤◌, ◌<◌, length, take};
ghost use Rattle.meaning.specs.Traces.{masked};
ghost use Rattle.ltl.specs.Nodes.{splits, temporals};
ghost use Rattle.ltl.specs.Keys.{tables_of};
ghost use Rattle.valuation.specs.Valued.{Valuable};
ghost use Rattle.labelling.specs.Marks.{hits, Marked, AllMarked};
ghost use Rattle.ltl.specs.Arrays.{TablesIn};

use events::{mask_has, power, width};
use meaning::Node;
use realizability::realizable_labels;
use relations::Tables;
use valuation::Rule;

// Marks the profiles that an event gives before the labels that some continuation has.
fn mark_event(whole: &mut [bool; 256], tables: &Tables<'_>, real: &[bool; 128], e: usize)
    requires { e < 16 }
    ensures { Marked tables.now.labels (hits tables.now.profiles.now real.now e) whole.old whole.new }
{
    for y in 0..tables.labels {
        let p = usize::from(tables.profiles[e][y]);
        whole[p] |= real[y];
    }
}

// Marks the profiles of all continuations, and no other.
fn mark_all(whole: &mut [bool; 256], tables: &Tables<'_>, real: &[bool; 128])
    ensures { AllMarked (masked tables.now.events tables.now.mask) tables.now.labels tables.now.profiles.now real.now whole.new }
{
    *whole = [false; 256];
    for e in 0..tables.events {
        if mask_has(tables.mask, e) {
            mark_event(whole, tables, real, e);
        }
    }
}

// The tables of a rule's residual system: the profile by event and next label, and which profiles the continuations
// have.
// Returns the number m of temporal nodes; there are 2^m labels.
#[inline(never)]
pub fn tables(
    signals: u8,
    mask: u16,
    count: u8,
    nodes: [Node; 64],
    profiles: &mut [[u8; 128]; 16],
    whole: &mut [bool; 256],
) -> u8
    requires signals_bound { signals ≤ 4 }
    requires valuable { Valuable count nodes }
    ensures value { result ≡ temporals (splits (take count nodes)) }
    ensures tables_in { TablesIn (2 ^ signals) (2 ^ result) (tables_of (masked (2 ^ signals) mask) (splits (take count nodes))) profiles.new whole.new }
{
    let rule = Rule {
        nodes: &nodes[..usize::from(count)],
    };
    let temporals = rule.temporal_count();
    let events = width(signals);
    let labels = power(temporals);
    let mut fairs = [[0u8; 128]; 16];
    rule.tables(events, labels, profiles, &mut fairs);
    let tables = Tables {
        profiles,
        fairs: &fairs,
        temporals,
        events,
        mask,
        labels,
    };
    let real = realizable_labels(&tables);
    mark_all(whole, &tables, &real);
    temporals
}
