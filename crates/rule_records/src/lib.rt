// The records of rule files: the first one, the mask's and a node's, each read or refused by the first check that
// fails.
#![tactic(auto)]

ghost use Rattle.std.specs.Prelude.{◌≡◌, ◌≤◌, ◌<◌};
ghost use Rattle.meaning.specs.RuleFiles.{header_of, mask_of, reading_of};
ghost use Rattle.rule_records.specs.Frames.{framed_of};

use events::full_mask;
use meaning::{Header, Mask, Node, Refusal};
use rule_nodes::{eighth, length_fits, node_at, out_of_range, shape_of, wrong_operand};
use wire::{byte_at, u16_at};

// A record's length and kind, once it is known to lie within the bytes.
#[derive(Clone, Copy)]
struct Frame {
    length: u16,
    kind: u16,
}

#[tactic(auto, unfolding(crate::specs::Frames::framed_of))]
fn frame_at(b: &[u8], p: usize) -> Result<Frame, Refusal>
    requires { p < 65536 }
    ensures { result ≡ framed_of b.now p }
{
    if b.len() < p + 2 {
        return Err(Refusal::Truncated(p));
    }
    let length = u16_at(b, p);
    if length < 2 {
        return Err(Refusal::WrongLength(p));
    }
    if b.len() < p + 2 + usize::from(length) {
        return Err(Refusal::Truncated(p));
    }
    let kind = u16_at(b, p + 2);
    Ok(Frame { length, kind })
}

// The first record.
#[tactic(auto, unfolding(crate::specs::Frames::framed_of, meaning::specs::RuleFiles::header_of))]
pub fn read_header(b: &[u8]) -> Result<Header, Refusal>
    ensures { result ≡ header_of b.now }
{
    let Frame { length, kind } = frame_at(b, 0)?;
    if kind != 256 {
        return Err(Refusal::WrongKind(0));
    }
    if length != 4 {
        return Err(Refusal::WrongLength(0));
    }
    let signals = byte_at(b, 4);
    if !(1..=4).contains(&signals) {
        return Err(Refusal::WrongSignals);
    }
    let nodes = byte_at(b, 5);
    if !(1..=64).contains(&nodes) {
        return Err(Refusal::WrongCount);
    }
    Ok(Header { signals, nodes })
}

// What stands between the first record and the nodes: the mask's record, or nothing, and then all events can happen.
#[tactic(auto, unfolding(crate::specs::Frames::framed_of, meaning::specs::RuleFiles::mask_of))]
pub fn read_mask(b: &[u8], signals: u8) -> Result<Mask, Refusal>
    requires { signals ≤ 4 }
    ensures { result ≡ mask_of b.now signals }
{
    let all = full_mask(signals);
    if u16_at(b, 8) != 257 {
        return Ok(Mask {
            mask: all,
            nodes_at: 6,
        });
    }
    if frame_at(b, 6)?.length != 4 {
        return Err(Refusal::WrongLength(6));
    }
    let mask = u16_at(b, 10);
    if all < mask {
        return Err(Refusal::OutOfRange(6));
    }
    if mask == 0 {
        return Err(Refusal::NoEvent(6));
    }
    Ok(Mask { mask, nodes_at: 12 })
}

// The record at p, of the node with this number, after so many temporal ones.
#[tactic(auto, unfolding(crate::specs::Frames::framed_of, meaning::specs::RuleFiles::reading_of))]
pub fn read_node(b: &[u8], signals: u8, p: usize, number: u8, seen: u8) -> Result<Node, Refusal>
    requires { (signals ≤ 4) × (p < 65536) }
    ensures { result ≡ reading_of b.now signals p number seen }
{
    let Frame { length, kind } = frame_at(b, p)?;
    if 13 < kind {
        return Err(Refusal::WrongKind(p));
    }
    let kind = kind as u8;
    let shape = shape_of(kind);
    if !length_fits(kind, shape.body, length) {
        return Err(Refusal::WrongLength(p));
    }
    let node = node_at(b, p, kind, shape.body, length);
    if wrong_operand(node, shape.operands, number) {
        return Err(Refusal::WrongOperand(p));
    }
    if out_of_range(node, signals) {
        return Err(Refusal::OutOfRange(p));
    }
    if eighth(shape.temporal, seen) {
        return Err(Refusal::EighthTemporal(p));
    }
    Ok(node)
}
