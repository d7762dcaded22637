// Prints the table of a rule file as text, into a lent buffer.
#![tactic(auto)]

ghost use Rattle.std.specs.Prelude.{◌≡◌};
ghost use Rattle.table_printer.specs.Printing.{print_answer, print_after};

use meaning::Refusal;
use table_text::table_text;
use text_pieces::refusal_text;

// Builds the table of a rule file and writes its text at the front of `text`, or the line of the refusal, and answers
// the length of what it wrote; or 10 where `text` has fewer than 32,768 bytes, with every byte as it was. Bytes past
// the text are kept.
pub fn print_rule(rule: &[u8], text: &mut [u8]) -> Result<usize, Refusal>
    ensures answer { result ≡ print_answer rule.now text.old }
    ensures output { text.new ≡ print_after rule.now text.old }
{
    if text.len() < 32768 {
        return Err(Refusal::ShortOutput);
    }
    // room for the longest table
    let mut table = [0; 9479];
    match monitor::build(rule, &mut table) {
        Ok(n) => table_text(&table[..n], text),
        Err(why) => refusal_text(why, text),
    }
}
