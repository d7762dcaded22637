// The breadth-first walk over the keys of remaining properties.
#![tactic(auto)]

ghost use Rattle.std.specs.Prelude.{◌≡◌, [], ◌∷◌, ◌^◌, ◌≤◌, ◌<◌, length, get_or};
ghost use Rattle.ltl.specs.Keys.{start_key};
ghost use Rattle.profile_sets.specs.Arrays.{set_in, tables_in, Tabled};
ghost use Rattle.exploration.specs.Answers.{stepped, happening, expand_key, explore_keys, class_by, Visits, GrownAs, WalkedAs, Classed, Explores};

use events::{mask_has, power, width};
use key_slots::KeyTable;
use profile_sets::{Key, Steps, start_profiles};

/// The states that a rule's remaining properties make: how many there are, their rows of successors and their classes.
#[derive(Drop)]
pub struct States {
    pub count: u16,
    pub rows: [[u8; 16]; 256],
    pub classes: [u8; 256],
}

// The entry for an event in the row of a key, which `held` has: the number of the key after the event, which is added
// at the end if it is new; or none if there is no room for it. An event that cannot happen has 0 and adds none.
fn visit(steps: &Steps, held: &[bool; 256], e: usize, keys: &mut KeyTable) -> Option<usize>
    requires { e < steps.now.events }
    ensures { Visits (stepped steps.now) steps.now.mask (set_in held.now) e keys.old keys.new result }
{
    if mask_has(steps.mask, e) {
        keys.enter(steps.step(held, e))
    } else {
        Some(0)
    }
}

// The row of key number `from`, for event 0 upward; or none if there is no room for a key.
fn expand(steps: &Steps, keys: &mut KeyTable, from: usize) -> Option<[u8; 16]>
    requires { from < length keys.old }
    ensures { GrownAs (expand_key (stepped steps.now) (happening steps.now) (get_or keys.old from 0) keys.old) steps.now.events keys.new result }
{
    let held = keys.key(from).spread(2 * steps.labels);
    let mut row = [0; 16];
    for e in 0..steps.events {
        row[e] = visit(steps, &held, e, keys)? as u8;
    }
    Some(row)
}

// "An array of rows, one row of successors per state", by value: the rows of the keys that are reached from the first
// one; or none if there are more than 256 keys.
fn walk(steps: &Steps, keys: &mut KeyTable) -> Option<[[u8; 16]; 256]>
    requires { keys.old ≡ start_key (stepped steps.now) ∷ [] }
    ensures { WalkedAs (explore_keys (stepped steps.now) (happening steps.now)) steps.now.events keys.new result }
{
    let mut rows = [[0; 16]; 256];
    let mut i = 0;
    while i < keys.len() {
        rows[i] = expand(steps, keys, i)?;
        i += 1;
    }
    Some(rows)
}

// ---- the classes of keys

fn class_of(key: &Key, full: &Key) -> u8
    ensures { result ≡ class_by full.now key.now }
{
    if *key == Key::empty() {
        2
    } else if key == full {
        1
    } else {
        0
    }
}

fn classify(keys: &KeyTable, full: &Key) -> [u8; 256]
    ensures { Classed full.now keys.now result }
{
    let mut classes = [0; 256];
    for s in 0..keys.len() {
        classes[s] = class_of(&keys.key(s), full);
    }
    classes
}

/// The states that the rule's remaining properties make, by the tables of its m temporal nodes and the mask of the
/// events that can happen; or none if there are more than 256.
#[inline(never)]
pub fn explore(
    signals: u8,
    mask: u16,
    m: u8,
    profiles: &[[u8; 128]; 16],
    whole: &[bool; 256],
) -> Option<States>
    requires { (signals ≤ 4) × (m ≤ 7) × Tabled (2 ^ signals) (2 ^ m) profiles.now whole.now }
    ensures { Explores signals mask (tables_in (2 ^ m) profiles.now whole.now) result }
{
    let full = Key::pack(whole);
    let steps = Steps {
        profiles,
        full,
        nodes: m,
        labels: power(m),
        events: width(signals),
        mask,
    };
    let first = start_profiles(whole, steps.labels);
    let mut keys = KeyTable::new(Key::pack(&first));
    let rows = walk(&steps, &mut keys)?;
    let classes = classify(&keys, &full);
    Some(States {
        count: keys.len() as u16,
        rows,
        classes,
    })
}
