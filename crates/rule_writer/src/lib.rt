// Writes a rule's nodes as a rule file.
#![tactic(auto)]

ghost use Rattle.std.specs.Prelude.{◌≡◌, ◌+◌, ◌≤◌, length};
ghost use Rattle.meaning.specs.RuleFiles.{body_length, temporals};
ghost use Rattle.meaning.specs.RuleTexts.{node_bytes, nodes_bytes, rule_bytes};
ghost use Rattle.meaning.specs.RuleTexts.{any_out_of_range, rule_answer, output_of};
ghost use Rattle.rule_bytes.specs.WellFormed.{KindsFit};
ghost use Rattle.text_pieces.specs.Put.{Put};
ghost use Rattle.rule_writer.specs.Writing.{unmasked};

use meaning::{Node, Refusal};
use rule_nodes::{out_of_range, shape_of};
use text_pieces::put_bytes;

// ---- what the nodes are checked for

// Whether a signal, a mask or a count of some node is out of range.
fn any_out_of_range(signals: u8, nodes: &[Node]) -> bool
    requires { signals ≤ 4 }
    ensures { result ≡ any_out_of_range signals nodes.now }
{
    nodes.iter().any(|node| out_of_range(*node, signals))
}

fn temporal_count(nodes: &[Node]) -> usize
    requires { KindsFit nodes.now }
    ensures { result ≡ temporals nodes.now }
{
    let mut count = 0;
    for node in nodes {
        count += usize::from(shape_of(node.kind).temporal);
    }
    count
}

fn record_length(kind: u8) -> usize
    requires { kind ≤ 13 }
    ensures { (result ≡ 4 + body_length kind) × (result ≤ 6) }
{
    4 + usize::from(shape_of(kind).body)
}

// The length of the nodes' file.
fn file_length(nodes: &[Node]) -> usize
    requires { (length nodes.now ≤ 64) × KindsFit nodes.now }
    ensures { result ≡ 6 + length (nodes_bytes nodes.now) }
{
    let mut n = 6;
    for node in nodes {
        n += record_length(node.kind);
    }
    n
}

// ---- the bytes

// A node's record at a place; says the place after it.
fn put_node(out: &mut [u8], at: usize, node: Node) -> usize
    requires { (node.kind ≤ 13) × (at + length (node_bytes node) ≤ length out.old) }
    ensures { Put out.old at (node_bytes node) out.new result }
{
    let body = shape_of(node.kind).body;
    let bytes = [2 + body, 0, node.kind, 0, node.a, node.b];
    put_bytes(out, at, &bytes[..4 + usize::from(body)])
}

// The nodes' records from a place on; says the place after them.
fn put_nodes(out: &mut [u8], start: usize, nodes: &[Node]) -> usize
    requires kinds { KindsFit nodes.now }
    requires nodes_in_bounds { start + length (nodes_bytes nodes.now) ≤ length out.old }
    ensures { Put out.old start (nodes_bytes nodes.now) out.new result }
{
    let mut at = start;
    for node in nodes {
        at = put_node(out, at, *node);
    }
    at
}

// The file of the nodes at the front of `rule` and its length; or 7, 8 or 10, in this order, and every byte of `rule`
// as it was. Bytes past the file are kept.
#[tactic(auto, unfolding(meaning::specs::RuleTexts::rule_answer, meaning::specs::RuleTexts::rule_bytes))]
pub fn write_nodes(signals: u8, nodes: &[Node], rule: &mut [u8]) -> Result<usize, Refusal>
    requires { (signals ≤ 4) × (length nodes.now ≤ 64) × KindsFit nodes.now }
    ensures answer { result ≡ rule_answer (length rule.old) (unmasked signals nodes.now) }
    ensures output { rule.new
        ≡ output_of (rule_answer (length rule.old) (unmasked signals nodes.now))
        (rule_bytes (unmasked signals nodes.now)) rule.old }
{
    if any_out_of_range(signals, nodes) {
        return Err(Refusal::OutOfRange(0));
    }
    if 7 < temporal_count(nodes) {
        return Err(Refusal::EighthTemporal(0));
    }
    let n = file_length(nodes);
    if rule.len() < n {
        return Err(Refusal::ShortOutput);
    }
    let first = put_bytes(rule, 0, &[4, 0, 0, 1, signals, nodes.len() as u8]);
    put_nodes(rule, first, nodes);
    Ok(n)
}
