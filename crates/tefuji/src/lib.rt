// What other languages call; include/tefuji.h says it for C. A slice passes as a pointer and a length. An answer is
// one number: what was asked for, or a refusal with its number in the top byte and its place below.
#![tactic(auto)]

ghost use Rattle.std.specs.Prelude.{◌≡◌};
ghost use Rattle.meaning.specs.RuleFiles.{judge};
ghost use Rattle.meaning.specs.TableFiles.{checked_of};
ghost use Rattle.building.specs.Build.{answer_of, output_after, Right};
ghost use Rattle.codes.specs.Codes.{length_code, opened_code, start_code, arrived_code, count_after, run_at, step_at, shown_code, judge_at, served_code, fresh_at, post_at, turn_at};
ghost use Rattle.rule_text.specs.Writing.{written_answer, written_after};
ghost use Rattle.table_text.specs.Text.{text_answer, text_after};
ghost use Rattle.tefuji.specs.Writing.{Written};

use codes::{
    arrived_code, count_after, length_code, opened_code, opening_in, served_code, shown_code,
    start_code, state_in,
};
use desk::{fresh, serve};
use desk_tasks::{post_request, turn_request};
use meaning::Watch;

// Writes the rule file of a text into the front of a buffer. Answers the file's length.
#[unsafe(no_mangle)]
pub extern "C" fn tefuji_write(text: &[u8], signals: u8, rule: &mut [u8]) -> u64
    ensures answer { result ≡ length_code (written_answer text.now signals rule.old) }
    ensures output { rule.new ≡ written_after text.now signals rule.old }
    ensures reading { Written text.now signals rule.old result rule.new }
{
    length_code(rule_text::write(text, signals, rule))
}

// Builds the smallest table of a rule file into the front of a buffer. Answers the table's length.
#[unsafe(no_mangle)]
pub extern "C" fn tefuji_build(rule: &[u8], table: &mut [u8]) -> u64
    ensures answer { result ≡ length_code (answer_of (judge rule.now) table.old) }
    ensures output { table.new ≡ output_after (judge rule.now) table.old }
    ensures demands { Right rule.now table.old table.new (answer_of (judge rule.now) table.old) }
{
    length_code(monitor::build(rule, table))
}

// Opens a table with a number: checks its bytes. Answers the opening, which what is done with the table takes.
#[unsafe(no_mangle)]
pub extern "C" fn tefuji_open(table: &[u8], number: u16) -> u64
    ensures { result ≡ opened_code number (checked_of table.now) }
{
    opened_code(number, table_file::check(table))
}

// The start of an opening: state 0, with its number.
#[unsafe(no_mangle)]
pub extern "C" fn tefuji_start(opened: u64) -> u32
    ensures { result ≡ start_code opened }
{
    start_code(opened)
}

// Runs a table that was opened, from a state. Answers the end state and its verdict, and stores the count.
#[unsafe(no_mangle)]
pub extern "C" fn tefuji_run(
    table: &[u8],
    opened: u64,
    state: u32,
    events: &[u8],
    count: &mut u64,
) -> u64
    ensures value { result ≡ arrived_code (run_at table.now opened state events.now) }
    ensures count_after { count.new ≡ count_after (run_at table.now opened state events.now) count.old }
{
    let o = opening_in(opened);
    let from = state_in(state);
    let arrived = openings::run_from(table, o.signals, o.states, o.number, from, events);
    *count = count_after(arrived, *count);
    arrived_code(arrived)
}

// Reads one event over a table that was opened. Answers the successor and its verdict.
#[unsafe(no_mangle)]
pub extern "C" fn tefuji_step(table: &[u8], opened: u64, state: u32, event: u8) -> u64
    ensures { result ≡ arrived_code (step_at table.now opened state event) }
{
    let o = opening_in(opened);
    let s = state_in(state);
    arrived_code(openings::step_from(table, o.signals, o.states, o.number, s, event))
}

// Writes a table's text into the front of a buffer of at least 32,768 bytes. Answers the text's length.
#[unsafe(no_mangle)]
pub extern "C" fn tefuji_text(table: &[u8], text: &mut [u8]) -> u64
    ensures value { result ≡ length_code (text_answer table.now text.old) }
    ensures text_after { text.new ≡ text_after table.now text.old }
{
    length_code(table_text::table_text(table, text))
}

// Judges two recordings with gaps over a table that was opened, from its start. Answers the verdict.
#[unsafe(no_mangle)]
pub extern "C" fn tefuji_judge(table: &[u8], opened: u64, first: &[u8], second: &[u8]) -> u64
    ensures { result ≡ shown_code (judge_at table.now opened first.now second.now) }
{
    let o = opening_in(opened);
    shown_code(recordings::judge_in(table, o.signals, o.states, first, second))
}

// ---- a desk of watches

// Makes a fresh desk of the row, over a table that was opened. Answers 0.
#[unsafe(no_mangle)]
pub extern "C" fn tefuji_fresh<'d, 't>(desk: &'d mut [Watch], table: &'t [u8], opened: u64) -> u64
    ensures { (result ≡ served_code (fresh_at table.now opened desk.old).answer) × (desk.new ≡ (fresh_at table.now opened desk.old).desk) }
{
    let o = opening_in(opened);
    served_code(fresh(desk, table, o.signals, o.states, o.number))
}

// Posts an event to the watch with a number, over a table that was opened. Answers 0.
#[unsafe(no_mangle)]
pub extern "C" fn tefuji_post<'d, 't>(
    desk: &'d mut [Watch],
    table: &'t [u8],
    opened: u64,
    number: usize,
    event: u8,
) -> u64
    ensures { (result ≡ served_code (post_at table.now opened desk.old number event).answer) × (desk.new ≡ (post_at table.now opened desk.old number event).desk) }
{
    let o = opening_in(opened);
    served_code(serve(
        desk,
        table,
        o.signals,
        o.states,
        post_request(o.number, number, event),
    ))
}

// Hears the oldest event of the next watch after the number last heard. Answers what was heard, or 0 where no event
// waits.
#[unsafe(no_mangle)]
pub extern "C" fn tefuji_turn<'d, 't>(
    desk: &'d mut [Watch],
    table: &'t [u8],
    opened: u64,
    last: usize,
) -> u64
    ensures { (result ≡ served_code (turn_at table.now opened desk.old last).answer) × (desk.new ≡ (turn_at table.now opened desk.old last).desk) }
{
    let o = opening_in(opened);
    served_code(serve(
        desk,
        table,
        o.signals,
        o.states,
        turn_request(o.number, last),
    ))
}
