// Writes the rule file of a rule's text.
#![tactic(auto)]

ghost use Rattle.std.specs.Prelude.{◌≡◌, ◌≤◌, length};
ghost use Rattle.meaning.specs.Grammar.{Parses};
ghost use Rattle.meaning.specs.RuleTexts.{rule_of, rule_bytes, tree_answer, output_of};
ghost use Rattle.grammar.specs.Reading.{tree_of};
ghost use Rattle.rule_text.specs.Writing.{written_answer, written_after, Writes, Right};

use meaning::Refusal;
use rule_writer::write_nodes;
use text_scan::scan;

// Writes the rule of signs that are an expression.
#[tactic(auto, unfolding(meaning::specs::RuleTexts::tree_answer))]
fn write_signs(signs: &[u8], signals: u8, rule: &mut [u8]) -> Result<usize, Refusal>
    requires { (length signs.now ≤ 1024) × Parses 6 signs.now (tree_of signs.now) }
    ensures value { result ≡ tree_answer signals (length rule.old) (tree_of signs.now) }
    ensures rule_after { rule.new ≡ output_of result (rule_bytes (rule_of signals (tree_of signs.now))) rule.old }
{
    if !(1..=4).contains(&signals) {
        return Err(Refusal::WrongSignals);
    }
    let count = text_nodes::count(signs);
    if 64 < count {
        return Err(Refusal::TooManyNodes);
    }
    let nodes = text_nodes::nodes(signs);
    write_nodes(signals, &nodes[..count], rule)
}

// Writes the rule file of a text at the front of `rule`. The answer is the file's length, or the refusal: 15, 4, 16, 7,
// 8, then 10. Bytes past the file, and on a refusal all bytes, keep their values. Both are given as functions of the
// text, and by the one reading that the grammar has for it; building the file has demands 2 and 3 of what was typed
// (crate typed_rules, `joined`).
pub fn write(text: &[u8], signals: u8, rule: &mut [u8]) -> Result<usize, Refusal>
    ensures answer { result ≡ written_answer text.now signals rule.old }
    ensures output { rule.new ≡ written_after text.now signals rule.old }
    ensures reading { Writes text.now signals rule.old result rule.new }
    ensures right { Right text.now signals rule.new result }
{
    if 1024 < text.len() {
        return Err(Refusal::WrongText(1024));
    }
    let mut signs = [0; 1024];
    match scan(text, &mut signs) {
        Ok(n) => write_signs(&signs[..n], signals, rule),
        Err(place) => Err(Refusal::WrongText(place)),
    }
}
