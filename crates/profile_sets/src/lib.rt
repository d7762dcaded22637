// Sets of profiles in four words, the keys of remaining properties: packing, comparing, and the step at an event.
#![tactic(auto)]

ghost use Rattle.std.specs.Prelude.{◌≡◌, false, cond, ◌+◌, ◌≤◌, ◌<◌, get_or, eqb};
ghost use Rattle.ltl.specs.Sets.{on};
ghost use Rattle.ltl.specs.Residuals.{rule_true};
ghost use Rattle.ltl.specs.Keys.{look, step_key};
ghost use Rattle.profile_sets.specs.Arrays.{set_in, word_in, Marked, SpreadFrom, hits_from, Cut, tables_by, Steppable, words_of};

use std::marker::Model;

/// A set of numbers below 256: number 64 * j + i is in it if bit i of word j is 1.
#[derive(Clone, Copy)]
pub struct Key {
    words: [u64; 4],
}

// Clauses see the set as a number.
impl Model for Key {
    ghost use Rattle.std.specs.Prelude.{ℕ};
    ghost use Rattle.profile_sets.specs.Arrays.{key_of, words_of, WordsFit};
    ghost use Rattle.profile_sets.specs.Words.{words-back};

    ghost Value = { ℕ };

    ghost view = { λ k. key_of k.words };

    ghost invariant = { λ k. WordsFit k.words };

    ghost inverse = { λ k. record { words = words_of k } };

    ghost use Rattle.std.proofs.Common.{List, ap};

    ghost inverse_ok = { λ k h. ap (λ (words : List ℕ). record { words = words }) (words-back k.words h) };
}

impl PartialEq for Key {
    ghost use Rattle.std.specs.Prelude.{eqb};
    ghost use Rattle.std.specs.Cmp.Rules.{comparing};
    ghost use Rattle.std.proofs.Common.{rules};

    ghost eq = { eqb };

    ghost laws = { Prim.search (comparing, rules) };

    fn eq(&self, other: &Key) -> bool {
        self.words == other.words
    }
}

// Word number j of the set that the bools have.
fn word_of(bits: &[bool; 256], j: usize) -> u64
    requires { j < 4 }
    ensures { result ≡ word_in bits.now j }
{
    let mut word = 0;
    for i in (0..64).rev() {
        word = word * 2 + u64::from(bits[64 * j + i]);
    }
    word
}

// The first bits of a word, `count` of them, as bools, from an index on.
fn spread_word(out: &mut [bool; 256], word: u64, from: usize, count: usize)
    requires { (count ≤ 64) × (from + count ≤ 256) }
    ensures { SpreadFrom count word from out.old out.new }
{
    let mut rest = word;
    for i in 0..count {
        out[from + i] = rest % 2 == 1;
        rest /= 2;
    }
}

impl Key {
    /// The set of no numbers.
    pub fn empty() -> Key
        ensures { result ≡ 0 }
    {
        Key { words: [0; 4] }
    }

    /// The set of the indices at which the bools are true.
    pub fn pack(bits: &[bool; 256]) -> Key
        ensures { result ≡ set_in bits.now }
    {
        Key {
            words: [
                word_of(bits, 0),
                word_of(bits, 1),
                word_of(bits, 2),
                word_of(bits, 3),
            ],
        }
    }

    pub fn words(&self) -> [u64; 4]
        ensures { result ≡ words_of self.now }
    {
        self.words
    }

    /// The set as one bool for each number below m.
    pub fn spread(&self, m: usize) -> [bool; 256]
        requires { m ≤ 256 }
        ensures { Marked m (on self.now) result }
    {
        let mut out = [false; 256];
        if m < 64 {
            spread_word(&mut out, self.words[0], 0, m);
        } else {
            for j in 0..m.div_ceil(64) {
                spread_word(&mut out, self.words[j], 64 * j, 64);
            }
        }
        out
    }
}

// The profiles in the key before any event: those past the first n that are in the whole.
pub fn start_profiles(whole: &[bool; 256], n: usize) -> [bool; 256]
    ensures { Marked 256 (rule_true n (set_in whole.now)) result }
{
    let mut out = [false; 256];
    for p in n..256 {
        out[p] = whole[p];
    }
    out
}

// Whether the event takes a label to a profile that is held.
fn hit(profiles: &[[u8; 128]; 16], held: &[bool; 256], e: usize, label: usize) -> u64
    requires { (e < 16) × (label < 128) }
    ensures { (result ≡ cond (get_or held.now (look profiles.now e label) false) 1 0) × (result ≤ 1) }
{
    u64::from(held[usize::from(profiles[e][label])])
}

// Which of the labels `from`, `from + 1`, .., `count` of them, the event takes to a profile that is held: label
// `from + i` is bit i. Two at a time, so that the word waits for itself half as often.
fn hits(profiles: &[[u8; 128]; 16], held: &[bool; 256], e: usize, from: usize, count: usize) -> u64
    requires { (e < 16) × (count ≤ 64) × (from + count ≤ 128) }
    ensures { result ≡ hits_from profiles.now held.now e from count }
{
    let mut word: u64 = 0;
    for pair in (0..count / 2).rev() {
        let i = from + count % 2 + 2 * pair;
        let high = hit(profiles, held, e, i + 1);
        let low = hit(profiles, held, e, i);
        word = word * 4 + (high * 2 + low);
    }
    if count % 2 == 1 {
        word * 2 + hit(profiles, held, e, from)
    } else {
        word
    }
}

// The profiles of `full` that are in the four words a, b, a, b.
fn cut(a: u64, b: u64, full: &Key) -> Key
    ensures { Cut a b full.now result }
{
    Key {
        words: [
            full.words[0] & a,
            full.words[1] & b,
            full.words[2] & a,
            full.words[3] & b,
        ],
    }
}

/// What steps a key by an event: the profile that each event leads each label to, the key of all profiles, how many
/// labels and events there are, and the mask of the events that can happen. There are 2 to the number of temporal
/// nodes of labels, and the two profiles of a label are so many apart.
#[derive(Drop)]
pub struct Steps<'a> {
    pub profiles: &'a [[u8; 128]; 16],
    pub full: Key,
    pub nodes: u8,
    pub labels: usize,
    pub events: usize,
    pub mask: u16,
    pub ghost steppable: { Steppable events nodes labels profiles.now full },
}

impl<'a> Steps<'a> {
    /// The key after one event more; `held` is the key as bools. The labels fill whole words, or all profiles fit in one.
    pub fn step(&self, held: &[bool; 256], e: usize) -> Key
        requires { e < self.now.events }
        ensures { result ≡ step_key (tables_by self.now.labels self.now.profiles.now self.now.full) (set_in held.now) e }
    {
        if self.labels <= 32 {
            let low = hits(self.profiles, held, e, 0, self.labels);
            let both = low + (low << self.labels);
            cut(both, both, &self.full)
        } else if self.labels == 64 {
            let low = hits(self.profiles, held, e, 0, 64);
            cut(low, low, &self.full)
        } else {
            let low = hits(self.profiles, held, e, 0, 64);
            let high = hits(self.profiles, held, e, 64, 64);
            cut(low, high, &self.full)
        }
    }
}
