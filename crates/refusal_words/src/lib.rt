// A refusal in words: what is wrong, and what to do.
#![tactic(auto)]

ghost use Rattle.std.specs.Prelude.{◌≡◌, ◌≤◌, length};
ghost use Rattle.refusal_words.specs.Words.{words_for, words_answer, words_after};

use meaning::Refusal;
use text_pieces::put_bytes;

// The words of a number from 13 on, or nothing where it is no refusal's.
#[tactic(auto, unfolding(crate::specs::Words::sentences))]
fn words_from_13(number: u8) -> &'static [u8]
    requires { 13 ≤ number }
    ensures words { result.now ≡ words_for number }
    ensures upper_bound { length result.now ≤ 120 }
{
    match number {
        13 => b"the state, or this watch of the desk, is none that the table can have: start anew",
        14 =>
            b"not the bytes of a table, or not of the table that was opened: build and open it anew",
        15 =>
            b"at the mark the text breaks the grammar, or ends unfinished, or passes 1,024 bytes; see --help",
        16 => b"the rule has more than 64 nodes, one for each sign but brackets: write it shorter",
        17 => b"the mask says that no event can happen: set the bit of each event that can",
        18 => b"a desk must have 1 to 64 watches, one for each tunnel",
        19 => b"no such tunnel: they are numbered from 0, and there are as many as watches",
        20 => b"32 events already wait for this tunnel: serve some before posting more",
        21 =>
            b"this tunnel has counted 4,294,967,295 events, the most there can be: make a fresh desk",
        22 => b"the two recordings must be equally long, two bytes for each event",
        23 =>
            b"at this event the two recordings contradict each other: one has a signal on, the other off",
        24 =>
            b"the state, or this watch of the desk, is of another opening: hand it to the one it came from",
        _ => b"",
    }
}

// The words of a number, or nothing where it is no refusal's.
#[tactic(auto, unfolding(crate::specs::Words::sentences))]
fn words_for(number: u8) -> &'static [u8]
    ensures words { result.now ≡ words_for number }
    ensures upper_bound { length result.now ≤ 120 }
{
    match number {
        0 => b"",
        1 =>
            b"the file is empty, cut short, or no rule file: a rule's text must go through write_rule first",
        2 =>
            b"this record's length does not fit its kind: it counts the kind (2 bytes) and the body",
        3 =>
            b"no record of this kind may stand here: first 256, then a mask (257) or none, then nodes (0 to 13)",
        4 => b"the number of signals must be 1 to 4",
        5 => b"the number of nodes must be 1 to 64",
        6 => b"an operand must be the number of an earlier node, counted from 0",
        7 =>
            b"a signal is out of range (of 2 there are s0 and s1), or in a rule file a mask or a count (0 to 4)",
        8 =>
            b"more than seven of X, U, F and G (next, until, eventually, always): write the rule with fewer",
        9 => b"bytes follow the last node: end the file here, or raise the number of nodes",
        10 => b"the output is shorter than what is to be written: lend more room",
        11 =>
            b"the rule can leave over 256 different remaining properties, too many for a table: simplify it",
        12 =>
            b"no such event: it is not below 2^signals, or the rule's mask says that it cannot happen",
        13.. => words_from_13(number),
    }
}

// The refusal's words at the front of the output, with a line end, and their length; or 10 where the output has fewer
// than 128 bytes, and every byte of it as it was. Bytes past the line end are kept.
pub fn words(refusal: Refusal, out: &mut [u8]) -> Result<usize, Refusal>
    ensures answer { result ≡ words_answer refusal out.old }
    ensures output { out.new ≡ words_after refusal out.old }
{
    if out.len() < 128 {
        return Err(Refusal::ShortOutput);
    }
    let n = put_bytes(out, 0, words_for(refusal.number()));
    Ok(put_bytes(out, n, b"\n"))
}
