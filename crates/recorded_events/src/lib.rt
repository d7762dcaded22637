// One recorded event: whether its bytes fit, whether two contradict each other, the two joined, and the possible
// events that agree with it.
#![tactic(auto)]

ghost use Rattle.std.specs.Prelude.{◌≡◌, true, ◌+◌, ◌*◌, ◌^◌, ◌≤◌, ◌<◌, length, take};
ghost use Rattle.meaning.specs.Traces.{masked};
ghost use Rattle.meaning.specs.Recordings.{seen_at, seen_fits, contradict, join, choices};

use events::{mask_has, width};
use meaning::Seen;

// The recorded event with an index.
pub fn seen_at(a: &[u8], i: usize) -> Seen
    requires { 2 * i + 2 ≤ length a.now }
    ensures { result ≡ seen_at a.now i }
{
    Seen {
        known: a[2 * i],
        values: a[2 * i + 1],
    }
}

// Whether it has no bit at or above the number of signals, and no value of a signal that is unknown.
pub fn seen_fits(signals: u8, r: Seen) -> bool
    requires { signals ≤ 4 }
    ensures { result ≡ seen_fits signals r }
{
    let bound = width(signals);
    usize::from(r.known) < bound && usize::from(r.values) < bound && r.known & r.values == r.values
}

// Whether both know a signal, with different values.
pub fn contradicts(signals: u8, r: Seen, q: Seen) -> bool
    requires { seen_fits signals r ≡ true }
    ensures { result ≡ contradict signals r q }
{
    r.known & q.known & (r.values ^ q.values) != 0
}

// The two joined: known where either knows.
pub fn joined(r: Seen, q: Seen) -> Seen
    ensures { result ≡ join r q }
{
    Seen {
        known: r.known | q.known,
        values: r.values | q.values,
    }
}

// The possible events that agree with a recorded one: the first so many of the slots, ascending.
#[derive(Clone, Copy)]
pub struct Choices {
    pub events: [u8; 16],
    pub count: usize,
    ghost room: { count ≤ 16 },
}

// Each event is stored, and the next over it if it does not fit.
pub fn choices_of(signals: u8, mask: u16, r: Seen) -> Choices
    requires { (signals ≤ 4) × (r.known < 2 ^ signals) }
    ensures { (result.count ≤ 16) × (length result.events ≡ 16) × (take result.count result.events ≡ choices (masked (2 ^ signals) mask) signals r) }
{
    let known = usize::from(r.known);
    let values = usize::from(r.values);
    let mut events = [0; 16];
    let mut count: usize = 0;
    for event in 0..width(signals) {
        events[count] = event as u8;
        count += usize::from(mask_has(mask, event) & (known & (event ^ values) == 0));
    }
    Choices { events, count }
}
