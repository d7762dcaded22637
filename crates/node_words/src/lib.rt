// Words with a bit for each of 64 labels, and what one node gives in them: bit l of a word is for label l of the lower
// or of the upper half.
#![tactic(auto)]

ghost use Rattle.std.specs.Prelude.{◌≡◌};
ghost use Rattle.ltl.specs.Sets.{on};
ghost use Rattle.node_words.specs.Words.{plain_words, promise_words, Lanes, Everywhere, LabelBits};

use events::{at_least, signal_on};
use meaning::Node;

// What a temporal node promises, a bit for each label: its bit of the label, and whether it is fair.
#[derive(Clone, Copy)]
pub struct Promise {
    pub label: u64,
    pub fair: u64,
}

// What valuing a node gives, a bit for each label. Only a temporal node promises something.
#[derive(Clone, Copy)]
pub struct Words {
    pub value: u64,
    pub promise: Option<Promise>,
}

impl Words {
    fn plain(value: u64) -> Self
        ensures { result ≡ plain_words value }
    {
        Words {
            value,
            promise: None,
        }
    }

    fn promise(value: u64, label: u64, fair: u64) -> Self
        ensures { result ≡ promise_words value label fair }
    {
        Words {
            value,
            promise: Some(Promise { label, fair }),
        }
    }
}

// Whether a number is in a set.
pub fn holds(set: u64, i: u8) -> bool
    ensures { result ≡ on set i }
{
    i < 64 && (set >> i) % 2 == 1
}

fn everywhere(bit: bool) -> u64
    ensures { Everywhere bit result }
{
    if bit { u64::MAX } else { 0 }
}

// Bit j of each label.
pub fn label_word(high: bool, j: u8) -> u64
    ensures { LabelBits high j result }
{
    match j {
        0 => 0xAAAA_AAAA_AAAA_AAAA,
        1 => 0xCCCC_CCCC_CCCC_CCCC,
        2 => 0xF0F0_F0F0_F0F0_F0F0,
        3 => 0xFF00_FF00_FF00_FF00,
        4 => 0xFFFF_0000_FFFF_0000,
        5 => 0xFFFF_FFFF_0000_0000,
        6 => everywhere(high),
        _ => 0,
    }
}

// A node's bits, where a and b are its operands' and x is its bit of the next label.
pub fn node_words(event: u8, a: u64, b: u64, x: u64, n: Node) -> Words
    ensures { Lanes event a b x n result }
{
    match n.kind {
        0 => Words::plain(0),
        1 => Words::plain(u64::MAX),
        2 => Words::plain(everywhere(signal_on(event, n.a))),
        3 => Words::plain(everywhere(at_least(event, n.a, n.b, n.upper))),
        4 => Words::plain(!a),
        5 => Words::plain(a & b),
        6 => Words::plain(a | b),
        7 => Words::plain(!a | b),
        8 => Words::plain(!(a ^ b)),
        9 => Words::plain(a ^ b),
        10 => Words::promise(x, a, u64::MAX),
        11 => {
            let now = b | (a & x);
            Words::promise(now, now, !now | b)
        }
        12 => {
            let now = a | x;
            Words::promise(now, now, !now | a)
        }
        13 => {
            let now = a & x;
            Words::promise(now, now, now | !a)
        }
        _ => Words::plain(0),
    }
}
