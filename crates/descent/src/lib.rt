// A reader of signs by levels: it lays three bytes for each occurrence, the operator after its operands: the sign, and
// the numbers of its operands.
#![tactic(auto)]

ghost use Rattle.std.specs.Prelude.{◌≡◌, ℕ, ◌+◌, ◌≤◌, ◌<◌, length, set};
ghost use Rattle.meaning.specs.Grammar.{rightward};
ghost use Rattle.descent.specs.Laying.{put, laid_as, Read, Moved, GoesOn};

// How far the signs were read, how many occurrences were laid, and the number of the last tree's root.
#[derive(Clone, Copy)]
pub struct Cursor {
    pub at: usize,
    pub count: usize,
    pub root: u8,
}

// Stores a byte where there is one.
fn store(out: &mut [u8], i: usize, v: u8)
    ensures { out.new ≡ set out.old i v }
{
    if i < out.len() {
        out[i] = v;
    }
}

// Lays one occurrence; the 65th and later ones are dropped.
#[tactic(auto, unfolding(crate::specs::Laying::put))]
fn emit(out: &mut [u8], at: usize, count: usize, x: u8, a: u8, b: u8) -> Cursor
    ensures { (put out.old count x a b ≡ laid_as out.new result) × (result.at ≡ at) }
{
    if count < 64 {
        store(out, 3 * count, x);
        store(out, 3 * count + 1, a);
        store(out, 3 * count + 2, b);
        Cursor {
            at,
            count: count + 1,
            root: count as u8,
        }
    } else {
        Cursor { at, count, root: 0 }
    }
}

// Whether the binary sign, by number from 0, groups to the right.
#[tactic(auto, unfolding(meaning::specs::Grammar::rightward))]
fn rightwards(n: u8) -> bool
    ensures { result ≡ rightward n }
{
    n == 0 || n == 4
}

// The binary sign at a place, if it is one from m up and below n. Signs are by number from 0.
fn going_on(signs: &[u8], at: usize, m: u8, n: u8) -> Option<u8>
    requires { (m ≤ n) × (n ≤ 6) }
    ensures { GoesOn signs.now at m n result }
{
    match signs.get(at) {
        Some(&x) if 12 + m <= x && x < 12 + n => Some(x - 12),
        _ => None,
    }
}

// Reads an operand, a prefix and what it stands before, or an expression in brackets, and lays its tree. Signs that are
// none of these are taken as they come, so that it always returns.
#[cycle(level_more_tight)]
fn tight(signs: &[u8], at: usize, out: &mut [u8], count: usize) -> Cursor
    requires { at ≤ length signs.now }
    ensures { Read signs.now 0 at out.old count out.new result }
{
    if at < signs.len() {
        let x = signs[at];
        if x == 10 {
            let c = level(signs, 6, at + 1, out, count);
            if c.at < signs.len() {
                Cursor { at: c.at + 1, ..c }
            } else {
                c
            }
        } else if x < 6 {
            emit(out, at + 1, count, x, 0, 0)
        } else {
            let c = tight(signs, at + 1, out, count);
            emit(out, c.at, c.count, x, c.root, 0)
        }
    } else {
        emit(out, at, count, 4, 0, 0)
    }
}

// Reads an expression of level n and lays its tree: the tightest, and then what goes on by looser and looser signs.
#[cycle(level_more_tight)]
pub fn level(signs: &[u8], n: u8, at: usize, out: &mut [u8], count: usize) -> Cursor
    requires { (n ≤ 6) × (at ≤ length signs.now) }
    ensures { Read signs.now n at out.old count out.new result }
{
    let mut c = tight(signs, at, out, count);
    let mut next = going_on(signs, c.at, 0, n);
    while let Some(m) = next {
        c = more(signs, m, c, out);
        next = going_on(signs, c.at, m + 1, n);
    }
    c
}

// Goes on from a tree that was laid, by the binary signs of level n + 1.
#[cycle(level_more_tight)]
fn more(signs: &[u8], n: u8, c: Cursor, out: &mut [u8]) -> Cursor
    requires { (n < 6) × (c.at ≤ length signs.now) }
    ensures { Moved signs.now n c out.old out.new result }
{
    let at = c.at;
    if at < signs.len() && signs[at] == 12 + n {
        let x = signs[at];
        if rightwards(n) {
            let d = level(signs, n + 1, at + 1, out, c.count);
            emit(out, d.at, d.count, x, c.root, d.root)
        } else {
            let d = level(signs, n, at + 1, out, c.count);
            let e = emit(out, d.at, d.count, x, c.root, d.root);
            more(signs, n, e, out)
        }
    } else {
        c
    }
}
