// Two recordings with gaps, joined and judged over all completions: one pass with the set of the states that
// completions reach.
#![tactic(auto)]

ghost use Rattle.std.specs.Prelude.{◌≡◌, true, ◌+◌, ◌*◌, ◌^◌, ◌≤◌, ◌<◌, length};
ghost use Rattle.table_layout.specs.Masks.{MaskIn};
ghost use Rattle.meaning.specs.Runs.{counts_fit};
ghost use Rattle.meaning.specs.Recordings.{lengths_fit, judged_in};
ghost use Rattle.completions.specs.Passing.{concluded, events_judged};
ghost use Rattle.recordings.specs.Hearings.{HearsJoined, Hears};

use meaning::{Refusal, Seen, Verdict};
use recorded_events::{choices_of, contradicts, joined, seen_at, seen_fits};
use run_parts::in_table;
use state_sets::{advance, all_show, start};
use table_layout::{counts_fit, possible_mask};

// Moves the set of states by every possible event that agrees with a joined one, and answers whether each state that it
// leads to is in the table; 12 where there is no such event.
fn hear_joined(
    t: &[u8],
    signals: u8,
    states: u16,
    mask: u16,
    seen: Seen,
    i: usize,
    members: &mut [bool; 256],
) -> Result<bool, Refusal>
    requires signals_bound { (signals ≤ 4) × (states ≤ 256) × MaskIn t.now signals mask }
    requires known_bound { seen.known < 2 ^ signals }
    ensures { HearsJoined t.now signals states seen i members.old members.new result }
{
    let choices = choices_of(signals, mask, seen);
    if choices.count < 1 {
        return Err(Refusal::WrongEvent(i));
    }
    let from = *members;
    Ok(advance(t, signals, states, &from, &choices, members))
}

// Hears the events with an index, and answers as one joined event does: 12 where one of the two does not fit, 23
// where they contradict each other, 12 where nothing possible agrees with both.
fn hear(
    t: &[u8],
    signals: u8,
    states: u16,
    mask: u16,
    a: &[u8],
    b: &[u8],
    i: usize,
    members: &mut [bool; 256],
) -> Result<bool, Refusal>
    requires signals_bound { (signals ≤ 4) × (states ≤ 256) × MaskIn t.now signals mask }
    requires i_in_bounds { (2 * i + 2 ≤ length a.now) × (2 * i + 2 ≤ length b.now) }
    ensures { Hears t.now signals states a.now b.now i members.old members.new result }
{
    let r = seen_at(a, i);
    let q = seen_at(b, i);
    if seen_fits(signals, r) & seen_fits(signals, q) {
        if contradicts(signals, r, q) {
            Err(Refusal::Contradiction(i))
        } else {
            hear_joined(t, signals, states, mask, joined(r, q), i, members)
        }
    } else {
        Err(Refusal::WrongEvent(i))
    }
}

// The verdict that all members of the set show, and undecided where they differ; 14 where a way has left the table.
fn conclude(
    t: &[u8],
    signals: u8,
    states: u16,
    members: &[bool; 256],
    inside: bool,
) -> Result<Verdict, Refusal>
    requires { (signals ≤ 4) × (states ≤ 256) }
    ensures { result ≡ concluded t.now signals states members.now inside }
{
    if !inside {
        Err(Refusal::WrongTable)
    } else if all_show(t, signals, states, members, u8::from(Verdict::Satisfied)) {
        Ok(Verdict::Satisfied)
    } else if all_show(t, signals, states, members, u8::from(Verdict::Violated)) {
        Ok(Verdict::Violated)
    } else if all_show(t, signals, states, members, u8::from(Verdict::Moot)) {
        Ok(Verdict::Moot)
    } else {
        Ok(Verdict::Undecided)
    }
}

// The pass over the events, of two recordings of one even length.
fn judge_events(t: &[u8], signals: u8, states: u16, a: &[u8], b: &[u8]) -> Result<Verdict, Refusal>
    requires { (counts_fit t.now signals states ≡ true) × (lengths_fit a.now b.now ≡ true) }
    ensures { result ≡ events_judged t.now signals states a.now b.now }
{
    let mask = possible_mask(t, signals);
    let mut inside = in_table(t, signals, states, 0);
    let mut members = start();
    for i in 0..a.len() / 2 {
        let stays = hear(t, signals, states, mask, a, b, i, &mut members)?;
        inside &= stays;
    }
    conclude(t, signals, states, &members, inside)
}

// Whether two recordings have one even length.
fn lengths_fit(a: &[u8], b: &[u8]) -> bool
    ensures { result ≡ lengths_fit a.now b.now }
{
    (a.len() == b.len()) & (a.len() % 2 == 0)
}

// Judges two recordings over bytes and counts: 14 for counts and length; 22; event by event 12, 23 and 12; and 14
// where the way of a completion leaves the table.
pub fn judge_in(t: &[u8], signals: u8, states: u16, a: &[u8], b: &[u8]) -> Result<Verdict, Refusal>
    ensures { result ≡ judged_in t.now signals states a.now b.now }
{
    if !counts_fit(t, signals, states) {
        return Err(Refusal::WrongTable);
    }
    if !lengths_fit(a, b) {
        return Err(Refusal::WrongRecordings);
    }
    judge_events(t, signals, states, a, b)
}
