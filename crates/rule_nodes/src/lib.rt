// The nodes of rule files: what each kind has, and the checks of one node's body.
#![tactic(auto)]

ghost use Rattle.std.specs.Prelude.{◌≡◌, not, ◌&&◌, ◌≤◌, ◌<◌, leb};
ghost use Rattle.meaning.specs.RuleFiles.{body_length, length_fits, upper_at, operands, operands_fit, ranges_fit};
ghost use Rattle.rule_nodes.specs.Shapes.{shape, shape_of, node_of};

use events::width;
use meaning::Node;
use wire::byte_at;

// ---- kinds

// What a kind of node has: so many bytes of body, so many of them operands, and whether it is temporal.
#[derive(Clone, Copy)]
pub struct Shape {
    pub body: u8,
    pub operands: u8,
    pub temporal: bool,
}

impl Shape {
    fn new(body: u8, operands: u8, temporal: bool) -> Self
        ensures { result ≡ shape body operands temporal }
    {
        Self {
            body,
            operands,
            temporal,
        }
    }
}

pub fn shape_of(kind: u8) -> Shape
    requires { kind ≤ 13 }
    ensures { result ≡ shape_of kind }
{
    match kind {
        0..=1 => Shape::new(0, 0, false),
        2 => Shape::new(1, 0, false),
        3 => Shape::new(2, 0, false),
        4 => Shape::new(1, 1, false),
        5..=9 => Shape::new(2, 2, false),
        10 => Shape::new(1, 1, true),
        11 => Shape::new(2, 2, true),
        _ => Shape::new(1, 1, true),
    }
}

// Whether a record's length fits its kind, whose body has so many bytes; that of an "at least" may have one more.
pub fn length_fits(kind: u8, body: u8, length: u16) -> bool
    requires { body ≡ body_length kind }
    ensures { result ≡ length_fits kind length }
{
    length == 2 + u16::from(body) || (kind == 3 && length == 5)
}

// ---- a node

// The upper count in the record at p, of this kind and length.
fn upper_at(b: &[u8], p: usize, kind: u8, length: u16) -> u8
    requires { p < 65536 }
    ensures { result ≡ upper_at b.now p kind length }
{
    match (kind, length) {
        (3, 5) => byte_at(b, p + 6),
        (3, _) => 4,
        _ => 0,
    }
}

// The node whose record is at p, of this kind and length, with as many bytes of its body as the kind has.
pub fn node_at(b: &[u8], p: usize, kind: u8, body: u8, length: u16) -> Node
    requires { (p < 65536) × (body ≡ body_length kind) }
    ensures { result ≡ node_of b.now p kind length }
{
    Node {
        kind,
        a: if body < 1 { 0 } else { byte_at(b, p + 4) },
        b: if body < 2 { 0 } else { byte_at(b, p + 5) },
        upper: upper_at(b, p, kind, length),
    }
}

// Whether one of the operands, so many, is not below the node's own number.
pub fn wrong_operand(node: Node, count: u8, number: u8) -> bool
    requires { count ≡ operands node.kind }
    ensures { result ≡ not (operands_fit number node) }
{
    (1 <= count && number <= node.a) || (2 <= count && number <= node.b)
}

// Whether a signal, a mask or one of two counts is out of range.
pub fn out_of_range(node: Node, signals: u8) -> bool
    requires { signals ≤ 4 }
    ensures { result ≡ not (ranges_fit signals node) }
{
    match node.kind {
        2 => signals <= node.a,
        3 => width(signals) <= usize::from(node.a) || 4 < node.b || 4 < node.upper,
        _ => false,
    }
}

// Whether a node is the eighth temporal one.
pub fn eighth(temporal: bool, seen: u8) -> bool
    ensures { result ≡ (temporal && leb 7 seen) }
{
    temporal && 7 <= seen
}
