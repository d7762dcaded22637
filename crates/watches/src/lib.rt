// One watch: whether it fits its table, and what a posted and a heard event make of it. How many watches a row has.
#![tactic(auto)]

ghost use Rattle.std.specs.Prelude.{◌≡◌, ◌&&◌, ◌+◌, ◌≤◌, ◌<◌, leb};
ghost use Rattle.meaning.specs.Desks.{queue, fresh_watch, no_watch, oldest, with_event, without_oldest};
ghost use Rattle.event_lists.specs.Masks.{all_in};
ghost use Rattle.watches.specs.Fitting.{numbers_fit, fits_in, shifted};

use event_lists::{all_in, each_in};
use events::can_happen;
use meaning::{Verdict, Watch};

// Whether the mask has all the events. A few are looked at one by one, which is faster for these.
fn slots_fit(mask: u16, events: &[u8]) -> bool
    ensures { result ≡ all_in mask events.now }
{
    if events.len() < 4 {
        each_in(mask, events)
    } else {
        all_in(mask, events)
    }
}

// How many events were heard and wait. The sum is wider than both, so that it cannot wrap.
pub fn count_of(heard: u32, waiting: u16) -> usize
    ensures { result ≡ heard + waiting }
{
    heard as usize + usize::from(waiting)
}

// Whether the state is one of a table's, at most 32 events wait, and with those heard they are at most 4,294,967,295.
fn numbers_fit(w: Watch, states: u16) -> bool
    ensures { result ≡ numbers_fit states w }
{
    (w.state < states) & (w.waiting <= 32) & (count_of(w.heard, w.waiting) <= 4294967295)
}

// Whether each event that waits can happen, by the table's mask.
fn queue_fits(w: Watch, mask: u16) -> bool
    requires { w.waiting ≤ 32 }
    ensures { result ≡ all_in mask (queue w) }
{
    if w.waiting == 0 {
        return true;
    }
    // Copied where some wait, so that a watch with none waiting is not.
    let events = w.events;
    match usize::from(w.waiting) {
        1 => can_happen(mask, usize::from(events[0])),
        waiting => slots_fit(mask, &events[..waiting]),
    }
}

// Whether a watch fits a table of so many states and with this mask.
pub fn fits(w: Watch, mask: u16, states: u16) -> bool
    ensures { result ≡ fits_in mask states w }
{
    numbers_fit(w, states) && queue_fits(w, mask)
}

// Whether a row has 1 to 64 watches.
pub fn row_fits(length: usize) -> bool
    ensures { result ≡ (leb 1 length && leb length 64) }
{
    (1..=64).contains(&length)
}

// A watch in state 0, which has this verdict, of the opening with a number, with nothing heard and nothing waiting.
pub fn fresh_watch(opening: u16, verdict: Verdict) -> Watch
    ensures { result ≡ fresh_watch opening verdict }
{
    Watch {
        state: 0,
        opening,
        waiting: 0,
        filled: u16::from(verdict.is_decided()),
        heard: 0,
        first: 0,
        events: [0; 32],
    }
}

// What is read past a row's end.
pub fn no_watch() -> Watch
    ensures { result ≡ no_watch }
{
    fresh_watch(0, Verdict::Undecided)
}

// The watch with one event more, in the first free slot.
pub fn with_event(w: Watch, event: u8) -> Watch
    requires { w.waiting < 32 }
    ensures { result ≡ with_event w event }
{
    let mut events = w.events;
    events[usize::from(w.waiting)] = event;
    Watch {
        waiting: w.waiting + 1,
        events,
        ..w
    }
}

// The event that waits longest.
pub fn oldest_event(w: Watch) -> u8
    ensures { result ≡ oldest w }
{
    w.events[0]
}

// The slots without the first: the others move up, and the last is 0.
fn moved_up(events: [u8; 32]) -> [u8; 32]
    ensures { result ≡ shifted events }
{
    let mut up = [0; 32];
    up[..31].copy_from_slice(&events[1..]);
    up
}

// The watch without its oldest event, which was heard and led to this state with this verdict. Where no number is
// filled, a verdict that stands fills it: it stood first after so many events.
pub fn without_oldest(w: Watch, state: u16, verdict: Verdict) -> Watch
    requires { w.heard < 4294967295 }
    ensures { result ≡ without_oldest w state verdict }
{
    let after = Watch {
        state,
        waiting: w.waiting.saturating_sub(1),
        heard: w.heard + 1,
        events: moved_up(w.events),
        ..w
    };
    if (w.filled == 0) & verdict.is_decided() {
        Watch {
            filled: 1,
            first: after.heard,
            ..after
        }
    } else {
        after
    }
}
