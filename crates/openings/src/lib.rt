// Runs and steps of an opening: over its number, and bytes and counts in hand, whatever they are. A state of another
// opening is refused.
#![tactic(auto)]

ghost use Rattle.std.specs.Prelude.{◌≡◌, [], ◌∷◌};
ghost use Rattle.meaning.specs.Openings.{state_of, carried, run_from_in};
ghost use Rattle.openings.specs.Steps.{number_in, stepped_in};

use meaning::{Arrival, Refusal, State};
use table_layout::counts_fit;
use table_run::{run_in, step_in};

// The start of the opening with a number.
pub fn start_of(opening: u16) -> State
    ensures { result ≡ state_of opening 0 }
{
    State { opening, number: 0 }
}

// What a run answers, with the opening's number carried along.
fn carry(opening: u16, ran: Result<Arrival<u16>, Refusal>) -> Result<Arrival<State>, Refusal>
    ensures { result ≡ carried opening ran }
{
    let arrival = ran?;
    Ok(Arrival {
        state: State {
            opening,
            number: arrival.state,
        },
        verdict: arrival.verdict,
        decided: arrival.decided,
    })
}

// The number in the table of a state of this opening. One of another is refused: by 14 for counts that no table of so
// many bytes has, and otherwise by 24.
fn number_of(t: &[u8], signals: u8, states: u16, opening: u16, state: State) -> Result<u16, Refusal>
    ensures { result ≡ number_in opening t.now signals states state }
{
    if state.opening == opening {
        Ok(state.number)
    } else if counts_fit(t, signals, states) {
        Err(Refusal::WrongOpening(0))
    } else {
        Err(Refusal::WrongTable)
    }
}

// A run over a list of events: 14, 24, 13 or 12 before it starts, and 14 where its way leaves the table.
pub fn run_from(
    t: &[u8],
    signals: u8,
    states: u16,
    opening: u16,
    state: State,
    events: &[u8],
) -> Result<Arrival<State>, Refusal>
    ensures { result ≡ run_from_in opening t.now signals states state events.now }
{
    let start = number_of(t, signals, states, opening, state)?;
    carry(opening, run_in(t, signals, states, start, events))
}

// A run over one event, with no list.
pub fn step_from(
    t: &[u8],
    signals: u8,
    states: u16,
    opening: u16,
    state: State,
    event: u8,
) -> Result<Arrival<State>, Refusal>
    ensures { result ≡ run_from_in opening t.now signals states state (event ∷ []) }
{
    let from = number_of(t, signals, states, opening, state)?;
    carry(opening, step_in(t, signals, states, from, event))
}

// Steps through a list of events, one by one; a refused step leaves the state as it is.
pub fn step_all_from(
    t: &[u8],
    signals: u8,
    states: u16,
    opening: u16,
    state: State,
    events: &[u8],
) -> State
    ensures { result ≡ stepped_in opening t.now signals states state events.now }
{
    let mut s = state;
    for event in events {
        if let Ok(arrival) = step_from(t, signals, states, opening, s, *event) {
            s = arrival.state;
        }
    }
    s
}
