// Reads a rule file and builds its table: the smallest that shows the rule's verdicts.
#![tactic(auto)]

ghost use Rattle.std.specs.Prelude.{◌≡◌, ◌^◌, ◌≤◌};
ghost use Rattle.meaning.specs.Traces.{masked};
ghost use Rattle.meaning.specs.RuleFiles.{Accepted, judge};
ghost use Rattle.moore.specs.Grouping.{Machine};
ghost use Rattle.smallest.proofs.Accepted.{Formed};
ghost use Rattle.building.specs.Build.{answer_of, output_after, Right};
ghost use Rattle.rule_file.specs.Reading.{rule_in};
ghost use Rattle.monitor.specs.Parts.{Finished, Walks};

use exploration::{States, explore};
use meaning::Refusal;
use rule_file::Rule;

// Groups the states that no word tells apart, and writes the table.
fn finish(signals: u8, mask: u16, states: &States, table: &mut [u8]) -> Result<usize, Refusal>
    requires signals_bound { (signals ≤ 4) × (states.now.count ≤ 256) }
    requires machine { Machine (masked (2 ^ signals) mask) states.now.count states.now.rows states.now.classes }
    ensures { Finished signals mask states.now.count states.now.rows states.now.classes table.old result table.new }
{
    let mut verdicts = [0; 256];
    let mut to = [[0; 16]; 256];
    let groups = grouping::reduce(
        signals,
        mask,
        states.count,
        &states.classes,
        states.rows,
        &mut verdicts,
        &mut to,
    );
    table_writer::write(table, signals, mask, groups, &verdicts, &to)
}

// The same of the states that the walk found, if they are not too many. A function of its own, as a build has little stack:
// the walk's and the writer's arrays are not there at once.
#[inline(never)]
fn conclude(rule: &Rule, found: Option<States>, table: &mut [u8]) -> Result<usize, Refusal>
    requires { Formed (rule_in rule.now.signals rule.now.mask rule.now.count rule.now.nodes) × Walks (rule_in rule.now.signals rule.now.mask rule.now.count rule.now.nodes) found }
    ensures value { result ≡ answer_of (Accepted (rule_in rule.now.signals rule.now.mask rule.now.count rule.now.nodes)) table.old }
    ensures table_after { table.new ≡ output_after (Accepted (rule_in rule.now.signals rule.now.mask rule.now.count rule.now.nodes)) table.old }
{
    match found {
        Some(states) => finish(rule.signals, rule.mask, &states, table),
        None => Err(Refusal::TooManyResiduals),
    }
}

// Builds the table of an accepted rule: the tables of its residuals, the walk over them, and what follows.
fn construct(rule: &Rule, table: &mut [u8]) -> Result<usize, Refusal>
    requires { Formed (rule_in rule.now.signals rule.now.mask rule.now.count rule.now.nodes) × (rule.now.count ≤ 64) }
    ensures value { result ≡ answer_of (Accepted (rule_in rule.now.signals rule.now.mask rule.now.count rule.now.nodes)) table.old }
    ensures table_after { table.new ≡ output_after (Accepted (rule_in rule.now.signals rule.now.mask rule.now.count rule.now.nodes)) table.old }
{
    let Rule {
        signals,
        mask,
        count,
        nodes,
    } = *rule;
    let mut profiles = [[0; 128]; 16];
    let mut whole = [false; 256];
    let m = labelling::tables(signals, mask, count, nodes, &mut profiles, &mut whole);
    let found = explore(signals, mask, m, &profiles, &whole);
    conclude(rule, found, table)
}

// Builds the table of a rule file at the front of `table`. The answer is the table's length, or the refusal: 1 to 9
// or 17 by the file, then 11, then 10. Bytes past the table, and on a refusal all bytes, keep their values.
pub fn build(rule: &[u8], table: &mut [u8]) -> Result<usize, Refusal>
    ensures answer { result ≡ answer_of (judge rule.now) table.old }
    ensures output { table.new ≡ output_after (judge rule.now) table.old }
    ensures demands { Right rule.now table.old table.new result }
{
    let rule = rule_file::read(rule)?;
    construct(&rule, table)
}
