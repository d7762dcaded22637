// The words of the product: the types of its answers. What they mean stands in specs/, which holds definitions only.
#![tactic(auto)]

ghost use Rattle.std.specs.Prelude.{◌≡◌};
ghost use Rattle.meaning.specs.Refusals.{code_of};
ghost use Rattle.meaning.specs.Runs.{decides};
ghost use Rattle.meaning.specs.TableFiles.{verdict_number};

use std::fmt;

// Document 01's verdicts.
#[derive(Clone, Copy, Debug, PartialEq, Eq)]
pub enum Verdict {
    Undecided,
    Satisfied,
    Violated,
    Moot,
}

impl Verdict {
    // Whether it is one other than undecided.
    pub fn is_decided(self) -> bool
        ensures { result ≡ decides self }
    {
        !matches!(self, Verdict::Undecided)
    }
}

// Its byte in a table.
impl From<Verdict> for u8 {
    ghost from_gives = { λ verdict byte. byte ≡ verdict_number verdict };

    fn from(verdict: Verdict) -> u8 {
        match verdict {
            Verdict::Undecided => 0,
            Verdict::Satisfied => 1,
            Verdict::Violated => 2,
            Verdict::Moot => 3,
        }
    }
}

// Its word.
impl fmt::Display for Verdict {
    fn fmt<W: fmt::Write>(&self, f: &mut fmt::Formatter<W>) -> fmt::Result {
        f.write_str(match self {
            Verdict::Undecided => "undecided",
            Verdict::Satisfied => "satisfied",
            Verdict::Violated => "violated",
            Verdict::Moot => "moot",
        })
    }
}

// The refusals of documents 01 and 02, in the order of their numbers, each with its place where that is not always 0.
#[derive(Clone, Copy, Debug, PartialEq, Eq)]
pub enum Refusal {
    Truncated(usize),
    WrongLength(usize),
    WrongKind(usize),
    WrongSignals,
    WrongCount,
    WrongOperand(usize),
    OutOfRange(usize),
    EighthTemporal(usize),
    TrailingBytes(usize),
    ShortOutput,
    TooManyResiduals,
    WrongEvent(usize),
    WrongState,
    WrongWatch(usize),
    WrongTable,
    WrongText(usize),
    TooManyNodes,
    NoEvent(usize),
    WrongDesk,
    WrongNumber(usize),
    QueueFull(usize),
    CountFull(usize),
    WrongRecordings,
    Contradiction(usize),
    WrongOpening(usize),
}

impl Refusal {
    pub fn number(self) -> u8
        ensures { result ≡ (code_of self).0 }
    {
        match self {
            Refusal::Truncated(_) => 1,
            Refusal::WrongLength(_) => 2,
            Refusal::WrongKind(_) => 3,
            Refusal::WrongSignals => 4,
            Refusal::WrongCount => 5,
            Refusal::WrongOperand(_) => 6,
            Refusal::OutOfRange(_) => 7,
            Refusal::EighthTemporal(_) => 8,
            Refusal::TrailingBytes(_) => 9,
            Refusal::ShortOutput => 10,
            Refusal::TooManyResiduals => 11,
            Refusal::WrongEvent(_) => 12,
            Refusal::WrongState => 13,
            Refusal::WrongWatch(_) => 13,
            Refusal::WrongTable => 14,
            Refusal::WrongText(_) => 15,
            Refusal::TooManyNodes => 16,
            Refusal::NoEvent(_) => 17,
            Refusal::WrongDesk => 18,
            Refusal::WrongNumber(_) => 19,
            Refusal::QueueFull(_) => 20,
            Refusal::CountFull(_) => 21,
            Refusal::WrongRecordings => 22,
            Refusal::Contradiction(_) => 23,
            Refusal::WrongOpening(_) => 24,
        }
    }

    pub fn place(self) -> usize
        ensures { result ≡ (code_of self).1 }
    {
        match self {
            Refusal::Truncated(p) => p,
            Refusal::WrongLength(p) => p,
            Refusal::WrongKind(p) => p,
            Refusal::WrongSignals => 0,
            Refusal::WrongCount => 0,
            Refusal::WrongOperand(p) => p,
            Refusal::OutOfRange(p) => p,
            Refusal::EighthTemporal(p) => p,
            Refusal::TrailingBytes(p) => p,
            Refusal::ShortOutput => 0,
            Refusal::TooManyResiduals => 0,
            Refusal::WrongEvent(p) => p,
            Refusal::WrongState => 0,
            Refusal::WrongWatch(p) => p,
            Refusal::WrongTable => 0,
            Refusal::WrongText(p) => p,
            Refusal::TooManyNodes => 0,
            Refusal::NoEvent(p) => p,
            Refusal::WrongDesk => 0,
            Refusal::WrongNumber(p) => p,
            Refusal::QueueFull(p) => p,
            Refusal::CountFull(p) => p,
            Refusal::WrongRecordings => 0,
            Refusal::Contradiction(p) => p,
            Refusal::WrongOpening(p) => p,
        }
    }
}

// The refusal's line, without its end.
impl fmt::Display for Refusal {
    fn fmt<W: fmt::Write>(&self, f: &mut fmt::Formatter<W>) -> fmt::Result {
        write!(f, "refused {} at {}", self.number(), self.place())
    }
}

// A node of a rule file: its kind, and the first two bytes of its body, 0 where the body has none. An "at least" has
// an upper count, which is 4 where its body does not say it; every other node has 0 there.
#[derive(Clone, Copy)]
pub struct Node {
    pub kind: u8,
    pub a: u8,
    pub b: u8,
    pub upper: u8,
}

// What the first record of a rule file says.
#[derive(Clone, Copy)]
pub struct Header {
    pub signals: u8,
    pub nodes: u8,
}

// What stands between the first record of a rule file and its nodes: the mask of the events that can happen, and the
// place where the nodes begin.
#[derive(Clone, Copy)]
pub struct Mask {
    pub mask: u16,
    pub nodes_at: usize,
}

// What a table's first record says: its signals and its states.
#[derive(Clone, Copy)]
pub struct Counts {
    pub signals: u8,
    pub states: u16,
}

// A state of an opened table: the number of its opening, and the state's own number in the table.
#[derive(Clone, Copy)]
pub struct State {
    pub opening: u16,
    pub number: u16,
}

// Where a run arrives: the state, its verdict, and after how many events a verdict other than undecided was first
// shown. Of an opened table it is a `State`; of a table's bytes, where the opening is not asked, the number of one.
#[derive(Clone, Copy)]
pub struct Arrival<S> {
    pub state: S,
    pub verdict: Verdict,
    pub decided: Option<usize>,
}

// A row of a table: its state's verdict, and its successors for event 0 upward. Past the last event they are 0.
#[derive(Clone, Copy)]
pub struct StateRow {
    pub verdict: Verdict,
    pub successors: [u16; 16],
}

// A watch of a desk: where the monitor of one tunnel stands and of which opening that state is, how many events it
// has heard, after how many of them a verdict other than undecided first stood, and the events that wait for it.
// `first` counts where `filled` is not 0, and otherwise there is none yet. Of the 32 slots the first `waiting` count,
// the oldest event in front; the others are free. It passes to other languages as it is, and whatever its bytes are,
// it is a watch.
#[repr(C)]
#[derive(Clone, Copy)]
pub struct Watch {
    pub state: u16,
    pub opening: u16,
    pub waiting: u16,
    pub filled: u16,
    pub heard: u32,
    pub first: u32,
    pub events: [u8; 32],
}

// What a desk has done: the work; an event of a tunnel was heard, which led to a state with its verdict; or no tunnel
// has an event waiting, and the number that was given.
#[derive(Clone, Copy)]
pub enum Served {
    Done,
    Heard {
        number: usize,
        event: u8,
        state: State,
        verdict: Verdict,
    },
    NoneWaits(usize),
}

// A recorded event: which signals are known, and their values; bit s is signal s.
#[derive(Clone, Copy)]
pub struct Seen {
    pub known: u8,
    pub values: u8,
}
