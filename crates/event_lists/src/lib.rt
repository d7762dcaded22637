// Lists of events: the first that cannot happen.
#![tactic(auto)]

ghost use Rattle.std.specs.Prelude.{◌≡◌, true, ◌≤◌, eqb, length};
ghost use Rattle.sequences.specs.Tabulate.{all_below};
ghost use Rattle.meaning.specs.Bytes.{bit};
ghost use Rattle.event_lists.specs.Bounds.{NoneAbove};
ghost use Rattle.event_lists.specs.Masks.{all_in, found_outside};

use events::can_happen;

// A number that no event is above.
fn most(events: &[u8]) -> u8
    ensures { NoneAbove (length events.now) events.now result }
{
    let mut top = 0;
    for event in events {
        top = top.max(*event);
    }
    top
}

// A number below which the mask has every event: how many there are, where it has all of one to four signals.
fn full_below(mask: u16) -> usize
    ensures { all_below result (λ e. eqb (bit e mask) 1) ≡ true }
{
    match mask {
        3 => 2,
        15 => 4,
        255 => 8,
        65535 => 16,
        _ => 0,
    }
}

// Whether the mask has all the events. It does not stop at one that is missing: most lists have none, and so it is
// faster.
pub fn each_in(mask: u16, events: &[u8]) -> bool
    ensures { result ≡ all_in mask events.now }
{
    let mut all = true;
    for event in events {
        all &= can_happen(mask, usize::from(*event));
    }
    all
}

// The same. Where every event can happen the largest tells, which is found many at a time.
pub fn all_in(mask: u16, events: &[u8]) -> bool
    ensures { result ≡ all_in mask events.now }
{
    usize::from(most(events)) < full_below(mask) || each_in(mask, events)
}

// The index of the first event that the mask does not have, if there is one.
pub fn first_bad(mask: u16, events: &[u8]) -> Option<usize>
    ensures { result ≡ found_outside mask events.now }
{
    if all_in(mask, events) {
        return None;
    }
    for (i, event) in events.iter().enumerate() {
        if !can_happen(mask, usize::from(*event)) {
            return Some(i);
        }
    }
    None
}
