// What is asked of a desk, what one pass over its row finds out, and what is then done to one watch.
#![tactic(auto)]

ghost use Rattle.std.specs.Prelude.{◌≡◌, ◌&&◌, ◌≤◌, ◌<◌};
ghost use Rattle.meaning.specs.Runs.{in_table};
ghost use Rattle.desk_tasks.specs.declared.Request.TheVariants.{Post, Turn};
ghost use Rattle.desk_tasks.specs.Tasks.{last_in, opening_in, Begun, look_of, next_of, wanted_of, post_decided, heard_from, turn_decided, decided_of};

use events::can_happen;
use meaning::{Refusal, Served, State, Watch};
use run_parts::in_table;
use table_layout::{counts_fit, possible_mask, successor_at, verdict_at};
use watches::{count_of, fits, oldest_event, row_fits, with_event, without_oldest};

// With the opening that has a number: an event posted to a number, or a turn after the number last heard.
#[derive(Clone, Copy)]
pub enum Request {
    Post {
        opening: u16,
        number: usize,
        event: u8,
    },
    Turn {
        opening: u16,
        last: usize,
    },
}

impl Request {
    // The number of the opening that is asked.
    fn opening(self) -> u16
        ensures { result ≡ opening_in self }
    {
        match self {
            Request::Post { opening, .. } => opening,
            Request::Turn { opening, .. } => opening,
        }
    }

    // The number after which a turn begins; a post has none.
    fn last(self) -> usize
        ensures { result ≡ last_in self }
    {
        match self {
            Request::Post { .. } => 0,
            Request::Turn { last, .. } => last,
        }
    }
}

// What is asked over a table of these counts, and what a pass over a row of so many watches has found of it: the
// lowest number of a watch that carries another opening's number, of one that does not fit, of one with an event
// waiting, and of one with an event waiting that comes after the number last heard. A pass looks at the watches below
// `upto`.
#[derive(Clone, Copy)]
pub struct Task {
    pub request: Request,
    pub signals: u8,
    pub states: u16,
    pub table: bool,
    pub mask: u16,
    pub length: usize,
    pub upto: usize,
    pub last: usize,
    pub opening: u16,
    pub foreign: Option<usize>,
    pub wrong: Option<usize>,
    pub waits: Option<usize>,
    pub later: Option<usize>,
}

// The watch that the one with a number becomes.
#[derive(Clone, Copy)]
pub struct Change {
    pub number: usize,
    pub watch: Watch,
}

// What is done: what becomes of one watch, where one changes, and the answer.
#[derive(Clone, Copy)]
pub struct Service {
    pub change: Option<Change>,
    pub answer: Served,
}

// ---- requests

pub fn post_request(opening: u16, number: usize, event: u8) -> Request
    ensures { result ≡ Post opening number event }
{
    Request::Post {
        opening,
        number,
        event,
    }
}

pub fn turn_request(opening: u16, last: usize) -> Request
    ensures { result ≡ Turn opening last }
{
    Request::Turn { opening, last }
}

// ---- before the pass

// The task of a request over a row of so many watches, before the pass: it goes over none of a row that is refused
// anyway.
pub fn begin(t: &[u8], signals: u8, states: u16, request: Request, length: usize) -> Task
    ensures { Begun t.now signals states request length result }
{
    let none = Task {
        request,
        signals,
        states,
        table: false,
        mask: 0,
        length,
        upto: 0,
        last: request.last(),
        opening: request.opening(),
        foreign: None,
        wrong: None,
        waits: None,
        later: None,
    };
    if !counts_fit(t, signals, states) {
        return none;
    }
    Task {
        table: true,
        mask: possible_mask(t, signals),
        upto: if row_fits(length) { length } else { 0 },
        ..none
    }
}

// ---- the pass, from the last watch to the first

// The task after a look at the watch with this number.
pub fn look(s: Task, w: Watch, number: usize) -> Task
    ensures { result ≡ look_of s w number }
{
    let mut s = s;
    let foreign = w.opening != s.opening;
    let wrong = !fits(w, s.mask, s.states);
    if foreign {
        s.foreign = Some(number);
    }
    if wrong {
        s.wrong = Some(number);
    }
    if 0 < w.waiting {
        s.waits = Some(number);
        if s.last < number {
            s.later = Some(number);
        }
    }
    s
}

// ---- after the pass

// The number of the next watch after the one last heard, going round, that has an event waiting.
fn next_waiting(s: Task) -> Option<usize>
    ensures { result ≡ next_of s }
{
    s.later.or(s.waits)
}

// The number of the watch that the request is about: a turn is about none where none waits.
pub fn wanted(s: Task) -> Option<usize>
    ensures { result ≡ wanted_of s }
{
    match s.request {
        Request::Post { number, .. } => Some(number),
        Request::Turn { .. } => next_waiting(s),
    }
}

// 19, 12, 20 and 21, or the event is added.
fn decide_post(s: Task, w: Watch, number: usize, event: u8) -> Result<Service, Refusal>
    ensures { result ≡ post_decided s w number event }
{
    if s.length <= number {
        return Err(Refusal::WrongNumber(number));
    }
    if !can_happen(s.mask, usize::from(event)) {
        return Err(Refusal::WrongEvent(number));
    }
    if 32 <= w.waiting {
        return Err(Refusal::QueueFull(number));
    }
    if count_of(w.heard, w.waiting) == 4294967295 {
        return Err(Refusal::CountFull(number));
    }
    let watch = with_event(w, event);
    Ok(Service {
        change: Some(Change { number, watch }),
        answer: Served::Done,
    })
}

// The oldest event of the watch with this number is heard, and answered as a run over it would be.
fn hear(t: &[u8], s: Task, w: Watch, number: usize) -> Result<Service, Refusal>
    requires { w.heard < 4294967295 }
    ensures { result ≡ heard_from t.now s w number }
{
    let Task {
        signals,
        states,
        opening,
        ..
    } = s;
    let state = w.state;
    if 4 < signals {
        return Err(Refusal::WrongTable);
    }
    if states <= state {
        return Err(Refusal::WrongState);
    }
    let event = oldest_event(w);
    if !can_happen(s.mask, usize::from(event)) {
        return Err(Refusal::WrongEvent(0));
    }
    let to = successor_at(t, signals, state, event);
    if !way_fits(t, signals, states, state, to) {
        return Err(Refusal::WrongTable);
    }
    let verdict = verdict_at(t, signals, to);
    let watch = without_oldest(w, to, verdict);
    Ok(Service {
        change: Some(Change { number, watch }),
        answer: Served::Heard {
            number,
            event,
            state: State {
                opening,
                number: to,
            },
            verdict,
        },
    })
}

// Whether both ends of a way of one event are states of the table.
fn way_fits(t: &[u8], signals: u8, states: u16, from: u16, to: u16) -> bool
    requires { signals ≤ 4 }
    ensures { result ≡ (in_table t.now signals states from && in_table t.now signals states to) }
{
    in_table(t, signals, states, from) & in_table(t, signals, states, to)
}

// The oldest event of the next watch is heard, or none waits. No watch that fits has an event waiting where no more
// can be counted.
fn decide_turn(t: &[u8], s: Task, w: Watch, last: usize) -> Result<Service, Refusal>
    ensures { result ≡ turn_decided t.now s w last }
{
    let Some(number) = next_waiting(s) else {
        return Ok(Service {
            change: None,
            answer: Served::NoneWaits(last),
        });
    };
    if 4294967295 <= w.heard {
        return Err(Refusal::WrongWatch(number));
    }
    hear(t, s, w, number)
}

// What is done to the watch that the request is about; 14, 18, 24 and 13.
pub fn decide(t: &[u8], s: Task, w: Watch) -> Result<Service, Refusal>
    ensures { result ≡ decided_of t.now s w }
{
    if !s.table {
        return Err(Refusal::WrongTable);
    }
    if !row_fits(s.length) {
        return Err(Refusal::WrongDesk);
    }
    if let Some(foreign) = s.foreign {
        return Err(Refusal::WrongOpening(foreign));
    }
    if let Some(wrong) = s.wrong {
        return Err(Refusal::WrongWatch(wrong));
    }
    match s.request {
        Request::Post { number, event, .. } => decide_post(s, w, number, event),
        Request::Turn { last, .. } => decide_turn(t, s, w, last),
    }
}
