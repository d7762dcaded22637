// Rule files, read record by record: the rule, or the first refusal in the order of document 01.
#![tactic(auto)]

ghost use Rattle.std.specs.Prelude.{◌≡◌, [], ◌≤◌};
ghost use Rattle.meaning.specs.RuleFiles.{nodes_from, judge};
ghost use Rattle.rule_file.specs.Reading.{read_of};

use meaning::{Header, Mask, Node, Refusal};
use rule_nodes::shape_of;
use rule_records::{read_header, read_mask, read_node};
use wire::u16_at;

// A rule: its signals, the mask of the events that can happen, and its nodes, the first `count`. The others are blank.
#[derive(Clone, Copy)]
pub struct Rule {
    pub signals: u8,
    pub mask: u16,
    pub count: u8,
    pub nodes: [Node; 64],
}

const BLANK: Node = Node {
    kind: 0,
    a: 0,
    b: 0,
    upper: 0,
};

// The nodes that the first record counts, from the place on that the mask says, and with signals and mask the rule.
fn read_nodes(bytes: &[u8], header: Header, mask: Mask) -> Result<Rule, Refusal>
    requires { (header.signals ≤ 4) × (header.nodes ≤ 64) × (mask.nodes_at ≤ 12) }
    ensures { result ≡ read_of (nodes_from header.nodes bytes.now header.signals mask.mask mask.nodes_at []) }
{
    let mut nodes = [BLANK; 64];
    let mut p = mask.nodes_at;
    let mut seen = 0;
    for i in 0..header.nodes {
        let node = read_node(bytes, header.signals, p, i, seen)?;
        nodes[usize::from(i)] = node;
        p += 2 + usize::from(u16_at(bytes, p));
        seen += u8::from(shape_of(node.kind).temporal);
    }
    if p < bytes.len() {
        return Err(Refusal::TrailingBytes(p));
    }
    Ok(Rule {
        signals: header.signals,
        mask: mask.mask,
        count: header.nodes,
        nodes,
    })
}

// The rule in the bytes, or the first refusal.
#[tactic(auto, unfolding(meaning::specs::RuleFiles::judge, meaning::specs::RuleFiles::body_from))]
pub fn read(bytes: &[u8]) -> Result<Rule, Refusal>
    ensures { result ≡ read_of (judge bytes.now) }
{
    let header = read_header(bytes)?;
    let mask = read_mask(bytes, header.signals)?;
    read_nodes(bytes, header, mask)
}
