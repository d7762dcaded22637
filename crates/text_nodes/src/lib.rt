// From the signs of a text to the nodes of its rule.
#![tactic(auto)]

ghost use Rattle.std.specs.Prelude.{◌≡◌, ◌+◌, ◌*◌, ◌≤◌, length, take};
ghost use Rattle.sequences.specs.Tabulate.{tabulate};
ghost use Rattle.meaning.specs.RuleTexts.{kind_of, size, nodes_of};
ghost use Rattle.grammar.specs.Reading.{tree_of};
ghost use Rattle.grammar.specs.Signs.{Signs};
ghost use Rattle.text_nodes.specs.Occurrences.{mark, occurrences, node_of, node_in};

use descent::level;
use meaning::Node;

// The number of nodes that the signs make: one for each sign that is no bracket.
pub fn count(signs: &[u8]) -> usize
    requires { length signs.now ≤ 1024 }
    ensures { (result ≡ occurrences signs.now) × (result ≤ 1024) }
{
    signs
        .iter()
        .filter(|sign| **sign != 10 && **sign != 11)
        .count()
}

// The kind of a sign's node.
fn kind_of(sign: u8) -> u8
    ensures { result ≡ kind_of sign }
{
    let kinds: [u8; 18] = [2, 2, 2, 2, 1, 0, 4, 10, 12, 13, 0, 0, 11, 5, 9, 6, 7, 8];
    kinds.get(usize::from(sign)).copied().unwrap_or(0)
}

// The node of an occurrence: a signal carries its number, any other sign its operands.
fn node_of(sign: u8, a: u8, b: u8) -> Node
    ensures { result ≡ node_of sign a b }
{
    Node {
        kind: kind_of(sign),
        a: if sign < 4 { sign } else { a },
        b,
        upper: 0,
    }
}

// The nodes of the first `count` occurrences that were laid.
fn nodes_in(laid: &[u8], count: usize) -> [Node; 64]
    requires { (count ≤ 64) × (3 * count ≤ length laid.now) }
    ensures { take count result ≡ tabulate count (node_in laid.now) }
{
    let mut nodes = [Node {
        kind: 0,
        a: 0,
        b: 0,
        upper: 0,
    }; 64];
    for i in 0..count {
        nodes[i] = node_of(laid[3 * i], laid[3 * i + 1], laid[3 * i + 2]);
    }
    nodes
}

// The nodes of the signs' tree, of at most 64.
pub fn nodes(signs: &[u8]) -> [Node; 64]
    requires { Signs (tree_of signs.now) × (size (tree_of signs.now) ≤ 64) }
    ensures { take (size (tree_of signs.now)) result ≡ nodes_of 0 (tree_of signs.now) }
{
    let mut laid = [0; 192];
    let end = level(signs, 6, 0, &mut laid, 0);
    nodes_in(&laid, end.count)
}
