// The keys met, and their slots: a hash table with the numbers of the keys, chained.
#![tactic(auto)]

ghost use Rattle.std.specs.Prelude.{◌≡◌, ◌+◌, ◌<◌, ◌≤◌, [], ◌∷◌, length, get_or};
ghost use Rattle.key_slots.specs.Arrays.{slot_of};
ghost use Rattle.key_slots.specs.Answers.{Enters, Finds};

use profile_sets::Key;
use std::marker::Model;

/// The keys met, at most 256, each once and one at least. A slot has the number of the last key in it, and link i that
/// of the last one before key i in the slot of key i. 0 ends each chain: it is the number of the first key, which is in
/// no slot and is tested after all others.
#[derive(Drop)]
pub struct KeyTable {
    keys: [Key; 256],
    slots: [u8; 768],
    links: [u8; 256],
    count: usize,
}

// Clauses see the list of the keys.
impl Model for KeyTable {
    ghost use Rattle.std.specs.Prelude.{List, ℕ, take};
    ghost use Rattle.key_slots.specs.Arrays.{KeysFit, Slotted};

    ghost Value = { List ℕ };

    ghost view = { λ t. take t.count t.keys };

    ghost invariant = { λ t. KeysFit t.count t.keys × Slotted t.count t.keys t.slots t.links };
}

// The slot of a key.
fn slot_of(key: &Key) -> usize
    ensures { (result ≡ slot_of key.now) × (result < 768) }
{
    let [a, b, c, d] = key.words();
    let low = a / 2 + b / 16;
    let high = c / 256 + d / 4096;
    ((low + high) % 761) as usize
}

impl KeyTable {
    /// The table with the first key only.
    pub fn new(first: Key) -> KeyTable
        ensures { result ≡ first ∷ [] }
    {
        let mut keys = [Key::empty(); 256];
        keys[0] = first;
        KeyTable {
            keys,
            slots: [0; 768],
            links: [0; 256],
            count: 1,
        }
    }

    /// How many keys there are.
    pub fn len(&self) -> usize
        ensures is { result ≡ length self.now }
        ensures few { result ≤ 256 }
    {
        self.count
    }

    /// Key number i.
    pub fn key(&self, i: usize) -> Key
        requires { i < length self.now }
        ensures { result ≡ get_or self.now i 0 }
    {
        let keys = &self.keys;
        keys[i]
    }

    // The number of the key that is the same: by the keys of its slot, from the last one down, and the first key.
    fn find(&self, slot: usize, key: &Key) -> Option<usize>
        requires { (slot ≡ slot_of key.now) × (slot < 768) }
        ensures { Finds self.now key.now result }
    {
        let mut i = usize::from(self.slots[slot]);
        while 0 < i {
            if self.keys[i] == *key {
                return Some(i);
            }
            i = usize::from(self.links[i]);
        }
        if self.keys[0] == *key { Some(0) } else { None }
    }

    /// The number of a key, which is added at the end if it is new; or none if there is no room for it.
    pub fn enter(&mut self, key: Key) -> Option<usize>
        ensures { Enters self.old key self.new result }
    {
        let slot = slot_of(&key);
        if let Some(i) = self.find(slot, &key) {
            return Some(i);
        }
        let new = self.count;
        if new == 256 {
            return None;
        }
        self.keys[new] = key;
        self.links[new] = self.slots[slot];
        self.slots[slot] = new as u8;
        self.count += 1;
        Some(new)
    }
}
