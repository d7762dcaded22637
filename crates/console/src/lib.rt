// What the programs read and write: bytes and cases on standard input, and answers as text on standard output. What
// standard input gives and what is written no contract can say: one that reads says what it takes of a reader whose
// bytes are known, and a function that only writes has none, and its comment says what it writes.
#![tactic(auto)]

ghost use Rattle.std.specs.Prelude.{◌≡◌, ◌≤◌, true, length, take, IfOk, IfSome, OnErr};
ghost use Rattle.std.specs.Io.KnownBytes.{Consumes};
ghost use Rattle.console.specs.Input.{Filled, Begun, NumberRead, PartRead};

use meaning::{Arrival, Refusal, State};
use std::env::{Env, FillError};
use std::io;
use std::io::{Read, Write};

// Reads until the buffer is full, the input ends or a read fails: how many bytes it put at the start of the buffer. A
// read that a signal interrupts counts as one that failed.
pub fn read_full<R: Read>(input: &mut R, buffer: &mut [u8]) -> io::Result<usize>
    ensures upper_bound { IfOk result (λ n. n ≤ length buffer.new) }
    ensures known { IfOk result (λ n. Consumes (R.remaining input.old) (R.remaining input.new) (take n buffer.new)) }
{
    let mut done: usize = 0;
    while done < buffer.len() {
        let n = input.read(&mut buffer[done..])?;
        if n == 0 {
            break;
        }
        done += n;
    }
    Ok(done)
}

// The next two bytes as a number, low byte first; none where the input has ended.
pub fn number<R: Read>(input: &mut R) -> io::Result<Option<u16>>
    ensures { IfOk result (λ found. IfSome found (λ n. NumberRead n (R.remaining input.old) (R.remaining input.new))) }
{
    let mut two = [0u8; 2];
    let got = read_full(input, &mut two)?;
    Ok(if got < 2 {
        None
    } else {
        Some(u16::from_le_bytes(two))
    })
}

// Only writes: the end state's own number, its verdict and the count, or the refusal.
pub fn say_run<W: Write>(out: &mut W, arrived: Result<Arrival<State>, Refusal>) -> io::Result<()> {
    match arrived {
        Err(why) => write!(out, "{why}"),
        Ok(at) => {
            write!(out, "state {} {} ", at.state.number, at.verdict)?;
            match at.decided {
                Some(n) => write!(out, "{n}"),
                None => write!(out, "none"),
            }
        }
    }
}

// The text before the number that ends a system's reason, or all where none does.
fn without_number(reason: &str) -> &str {
    match reason.split_once(" (os error ") {
        Some((before, _)) => before,
        None => reason,
    }
}

// Only writes: a line with what failed and the system's reason, without the reason's number.
pub fn say_failure<R: Eprint + AllocGlobal>(rt: &R, what: &str, why: io::Error) -> io::Result<()> {
    let text = format!(in rt.alloc(); "{why}")?;
    let reason = without_number(text.as_str());
    eprintln!(rt; "{what}: {reason}")
}

// Whether the program was started with an argument i, of which argument 0 is its own name.
fn is_given<E: Env>(env: &E, i: usize) -> bool {
    !matches!(env.arg(i, &mut []), Err(FillError::NotPresent))
}

// How many arguments the program was started with, its own name among them, or 3 where there are more.
pub fn arg_count<E: Env>(env: &E) -> usize
    ensures { result ≤ 3 }
{
    for i in 0..3 {
        if !is_given(env, i) {
            return i;
        }
    }
    3
}

// Fills the first n bytes from the input: whether there were n, in the buffer and in the input. Bytes past them are
// kept, and all in a buffer that is too short. A read that fails, which only a buffer with room comes to, may have
// put some of the n there, and keeps the bytes past them too.
pub fn fill<R: Read>(input: &mut R, buffer: &mut [u8], n: usize) -> io::Result<bool>
    ensures filled { IfOk result (Filled n buffer.old buffer.new) }
    ensures begun { OnErr result (Begun n buffer.old buffer.new) }
    ensures long { IfOk result (λ all. all ≡ true → n ≤ length buffer.new) }
    ensures known { IfOk result (λ all. all ≡ true →
        Consumes (R.remaining input.old) (R.remaining input.new) (take n buffer.new)) }
{
    if buffer.len() < n {
        return Ok(false);
    }
    let got = read_full(input, &mut buffer[..n])?;
    Ok(got == n)
}

// The first n bytes, or all where there are fewer.
pub fn front(buffer: &[u8], n: usize) -> &[u8]
    ensures { result.now ≡ take n buffer.now }
{
    if n <= buffer.len() {
        return &buffer[..n];
    }
    buffer
}

// The next part of a case: its length in two bytes, and so many bytes. None where the input ends before, or the
// buffer is too short.
pub fn part<'b, R: Read>(input: &mut R, buffer: &'b mut [u8]) -> io::Result<Option<&'b [u8]>>
    ensures upper_bound { IfOk result (λ found. IfSome found (λ bytes. length bytes.now ≤ 65535)) }
    ensures known { IfOk result (λ found. IfSome found (λ bytes.
        PartRead bytes.now (R.remaining input.old) (R.remaining input.new))) }
{
    let Some(n) = number(input)? else {
        return Ok(None);
    };
    let n = usize::from(n);
    if fill(input, buffer, n)? {
        Ok(Some(front(buffer, n)))
    } else {
        Ok(None)
    }
}
