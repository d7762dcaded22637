// Events: how many there are, which of them can happen, which signals are on, and how many of a mask's.
#![tactic(auto)]

ghost use Rattle.std.specs.Prelude.{◌≡◌, ◌&&◌, ◌^◌, ◌≤◌, ◌<◌, leb, eqb};
ghost use Rattle.meaning.specs.Bytes.{bit};
ghost use Rattle.meaning.specs.Traces.{full_mask};
ghost use Rattle.meaning.specs.Formulas.{count_on};

// A power of 2: how many sets of k things there are.
pub fn power(k: u8) -> usize
    requires { k ≤ 7 }
    ensures { (result ≡ 2 ^ k) × (result ≤ 128) }
{
    1 << k
}

// How many events there are over so many signals, and how many masks.
pub fn width(signals: u8) -> usize
    requires { signals ≤ 4 }
    ensures { (result ≡ 2 ^ signals) × (result ≤ 16) }
{
    power(signals)
}

// The mask of all events over so many signals.
pub fn full_mask(signals: u8) -> u16
    requires { signals ≤ 4 }
    ensures { result ≡ full_mask signals }
{
    match signals {
        0 => 1,
        1 => 3,
        2 => 15,
        3 => 255,
        _ => 65535,
    }
}

// Whether an event below 16 can happen, by the mask.
pub fn mask_has(mask: u16, event: usize) -> bool
    requires { event < 16 }
    ensures { result ≡ eqb (bit event mask) 1 }
{
    (mask >> event) % 2 == 1
}

// Whether an event can happen, by the mask. A mask has sixteen; any other cannot.
pub fn can_happen(mask: u16, event: usize) -> bool
    ensures { result ≡ eqb (bit event mask) 1 }
{
    event < 16 && mask_has(mask, event)
}

// Whether a signal is on. A byte has eight; any other is off.
pub fn signal_on(event: u8, signal: u8) -> bool
    ensures { result ≡ eqb (bit signal event) 1 }
{
    signal < 8 && (event >> signal) % 2 == 1
}

// Whether at least and at most so many of the signals in the mask are on, of the four that there can be: the ones of
// event and mask are counted.
pub fn at_least(event: u8, mask: u8, count: u8, upper: u8) -> bool
    ensures { result ≡ (leb count (count_on 4 mask event) && leb (count_on 4 mask event) upper) }
{
    let on = u32::from(event & mask & 15).count_ones();
    u32::from(count) <= on && on <= u32::from(upper)
}
