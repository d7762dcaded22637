// A lent row of watches: a fresh one is made, and posts and turns change one watch of it.
#![tactic(auto)]

ghost use Rattle.std.specs.Prelude.{◌≡◌, ◌&&◌, set};
ghost use Rattle.meaning.specs.Runs.{counts_fit, in_table};
ghost use Rattle.meaning.specs.Desks.{fresh_in};
ghost use Rattle.desk_tasks.specs.Surveys.{served_in};

use desk_survey::survey;
use desk_tasks::Request;
use meaning::{Refusal, Served, Watch};
use run_parts::in_table;
use table_layout::{counts_fit, verdict_at};
use watches::{fresh_watch, row_fits};

// ---- a fresh row

// Whether the counts are those of a table of as many bytes, and its start shows one of the four verdicts.
fn starts(t: &[u8], signals: u8, states: u16) -> bool
    ensures { result ≡ (counts_fit t.now signals states && in_table t.now signals states 0) }
{
    counts_fit(t, signals, states) && in_table(t, signals, states, 0)
}

// Makes a fresh desk of the whole row, over the bytes of a table, its counts and the number of its opening, whatever
// they are and whatever stood there: 14 and 18, or every watch is fresh.
#[tactic(auto, unfolding(meaning::specs::Desks::fresh_in))]
pub fn fresh<'d, 't>(
    desk: &'d mut [Watch],
    t: &'t [u8],
    signals: u8,
    states: u16,
    opening: u16,
) -> Result<Served, Refusal>
    ensures { (result ≡ (fresh_in opening t.now signals states desk.old).answer) × (desk.new ≡ (fresh_in opening t.now signals states desk.old).desk) }
{
    if !starts(t, signals, states) {
        return Err(Refusal::WrongTable);
    }
    if !row_fits(desk.len()) {
        return Err(Refusal::WrongDesk);
    }
    let verdict = verdict_at(t, signals, 0);
    desk.fill(fresh_watch(opening, verdict));
    Ok(Served::Done)
}

// ---- a post or a turn

// Stores a watch at its number; past the row nothing is stored.
pub fn put(desk: &mut [Watch], number: usize, watch: Watch)
    ensures { desk.new ≡ set desk.old number watch }
{
    if number < desk.len() {
        desk[number] = watch;
    }
}

// A post or a turn, over the bytes of a table and its counts, whatever they are: one watch is changed, or none.
pub fn serve<'d, 't>(
    desk: &'d mut [Watch],
    t: &'t [u8],
    signals: u8,
    states: u16,
    request: Request,
) -> Result<Served, Refusal>
    ensures { (result ≡ (served_in t.now signals states request desk.old).answer) × (desk.new ≡ (served_in t.now signals states request desk.old).desk) }
{
    let service = survey(desk, t, signals, states, request)?;
    if let Some(change) = service.change {
        put(desk, change.number, change.watch);
    }
    Ok(service.answer)
}
