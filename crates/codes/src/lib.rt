// Answers as one number: what was asked for, or a refusal with its number in the top byte and its place below.
#![tactic(auto)]

ghost use Rattle.std.specs.Prelude.{◌≡◌, ◌*◌, ◌<◌, ◌^◌, Ok};
ghost use Rattle.meaning.specs.TableFiles.{verdict_number};
ghost use Rattle.meaning.specs.declared.Served.TheVariants.{Heard};
ghost use Rattle.codes.specs.Codes.{place_code, refusal_code, length_code, state_code, state_in, opened_code, number_of};
ghost use Rattle.codes.specs.Codes.{start_code, arrived_code, count_code, count_after, shown_code, number_code};
ghost use Rattle.codes.specs.Codes.{served_code, opening_in};

use meaning::{Arrival, Counts, Refusal, Served, State, Verdict};

fn place_code(place: usize) -> u64
    ensures { (result ≡ place_code place) × (result < 2 ^ 56) }
{
    if place < 72057594037927936 {
        place as u64
    } else {
        72057594037927935
    }
}

pub fn refusal_code(why: Refusal) -> u64
    ensures { result ≡ refusal_code why }
{
    u64::from(why.number()) * 72057594037927936 + place_code(why.place())
}

// The length in bytes of what was written.
pub fn length_code(written: Result<usize, Refusal>) -> u64
    ensures { result ≡ length_code written }
{
    written.map_or_else(refusal_code, |n| n as u64)
}

// A state as one number: the number of its opening times 65,536, and its own.
fn state_code(state: State) -> u64
    ensures { (result ≡ state_code state) × (result < 2 ^ 32) }
{
    u64::from(state.opening) * 65536 + u64::from(state.number)
}

// The state in a number.
pub fn state_in(state: u32) -> State
    ensures { result ≡ state_in state }
{
    State {
        opening: (state / 65536) as u16,
        number: (state % 65536) as u16,
    }
}

// An opening as one number: its signals times 2^32, its number times 65,536, and its states.
pub fn opened_code(number: u16, checked: Result<Counts, Refusal>) -> u64
    ensures { result ≡ opened_code number checked }
{
    checked.map_or_else(refusal_code, |counts| {
        u64::from(counts.signals) * 4294967296
            + u64::from(number) * 65536
            + u64::from(counts.states)
    })
}

// The number that an opening has from its caller.
fn opening_number(opened: u64) -> u16
    ensures { result ≡ number_of opened }
{
    (opened / 65536 % 65536) as u16
}

// The start of an opening, as one number.
pub fn start_code(opened: u64) -> u32
    ensures { result ≡ start_code opened }
{
    u32::from(opening_number(opened)) * 65536
}

// A verdict's place in an answer.
fn verdict_code(verdict: Verdict) -> u64
    ensures { (result ≡ verdict_number verdict * 2 ^ 32) × (result < 2 ^ 34) }
{
    u64::from(u8::from(verdict)) * 4294967296
}

pub fn arrived_code(arrived: Result<Arrival<State>, Refusal>) -> u64
    ensures { result ≡ arrived_code arrived }
{
    arrived.map_or_else(refusal_code, |at| {
        verdict_code(at.verdict) + state_code(at.state)
    })
}

fn count_code(decided: Option<usize>) -> u64
    ensures { result ≡ count_code decided }
{
    decided.map_or(u64::MAX, |n| n as u64)
}

// Where the count goes after a run.
pub fn count_after(arrived: Result<Arrival<State>, Refusal>, was: u64) -> u64
    ensures { result ≡ count_after arrived was }
{
    arrived.map_or(was, |at| count_code(at.decided))
}

pub fn shown_code(shown: Result<Verdict, Refusal>) -> u64
    ensures { result ≡ shown_code shown }
{
    shown.map_or_else(refusal_code, verdict_code)
}

// A tunnel's number in an answer.
fn number_code(number: usize) -> u64
    ensures { (result ≡ number_code number) × (result < 128) }
{
    if number < 128 { number as u64 } else { 127 }
}

fn heard_code(number: usize, event: u8, state: State, verdict: Verdict) -> u64
    ensures { result ≡ served_code (Ok (Heard number event state verdict)) }
{
    let tunnel = number_code(number) * 281474976710656;
    let events = u64::from(event) * 1099511627776;
    36028797018963968 + tunnel + events + verdict_code(verdict) + state_code(state)
}

pub fn served_code(served: Result<Served, Refusal>) -> u64
    ensures { result ≡ served_code served }
{
    match served {
        Ok(Served::Done) => 0,
        Ok(
            Served::Heard {
                number,
                event,
                state,
                verdict,
            },
        ) => heard_code(number, event, state, verdict),
        Ok(Served::NoneWaits(_)) => 0,
        Err(why) => refusal_code(why),
    }
}

// An opening's number and counts, as opening answers them.
#[derive(Clone, Copy)]
pub struct Opening {
    pub number: u16,
    pub signals: u8,
    pub states: u16,
}

// The opening in a number; with 0 signals and 0 states, which no table has, where it is none that opening answers.
pub fn opening_in(opened: u64) -> Opening
    ensures { result ≡ opening_in opened }
{
    let number = opening_number(opened);
    let signals = opened / 4294967296;
    if 4 < signals {
        return Opening {
            number,
            signals: 0,
            states: 0,
        };
    }
    Opening {
        number,
        signals: signals as u8,
        states: (opened % 65536) as u16,
    }
}
