// Pieces of text put into a lent buffer: bytes, numbers in decimal, the line of a refusal.
#![tactic(auto)]

ghost use Rattle.std.specs.Prelude.{◌≡◌, ◌+◌, ◌≤◌, IfOk, length};
ghost use Rattle.text_pieces.specs.Put.{Put};
ghost use Rattle.text_pieces.specs.Decimal.{decimal};
ghost use Rattle.text_pieces.specs.RefusalLine.{line_answer, line_after};

use meaning::Refusal;

// ---- pieces: each is put at a place, and the place after it is returned

pub fn put_bytes(out: &mut [u8], at: usize, bytes: &[u8]) -> usize
    requires { at + length bytes.now ≤ length out.old }
    ensures { Put out.old at bytes.now out.new result }
{
    let end = at + bytes.len();
    out[at..end].copy_from_slice(bytes);
    end
}

// A number: its digits but the last, then the last.
fn put_decimal(out: &mut [u8], at: usize, n: usize) -> usize
    requires { at + length (decimal n) ≤ length out.old }
    ensures { Put out.old at (decimal n) out.new result }
{
    if n < 10 {
        out[at] = b'0' + n as u8;
        at + 1
    } else {
        let next = put_decimal(out, at, n / 10);
        out[next] = b'0' + (n % 10) as u8;
        next + 1
    }
}

// A number of two bytes, which has at most five digits.
pub fn put_number(out: &mut [u8], at: usize, n: u16) -> usize
    requires { at + 5 ≤ length out.old }
    ensures put { Put out.old at (decimal n) out.new result }
    ensures upper_bound { result ≤ at + 5 }
{
    put_decimal(out, at, usize::from(n))
}

// ---- a refusal

// The refusal's line at the front of the output and its length; or 10 where the output has fewer than 64 bytes, and
// every byte of it as it was. Bytes past the line are kept.
pub fn refusal_text(refusal: Refusal, out: &mut [u8]) -> Result<usize, Refusal>
    ensures value { result ≡ line_answer refusal out.old }
    ensures out_after { out.new ≡ line_after refusal out.old }
    ensures upper_bound { IfOk result (λ n. n ≤ 64) }
{
    if out.len() < 64 {
        return Err(Refusal::ShortOutput);
    }
    let a = put_bytes(out, 0, b"refused ");
    let b = put_number(out, a, u16::from(refusal.number()));
    let c = put_bytes(out, b, b" at ");
    let d = put_decimal(out, c, refusal.place());
    Ok(put_bytes(out, d, b"\n"))
}
