// Numbers in files: two bytes, low byte first. Past the end of the bytes there are zeros, so reading is total.
#![tactic(auto)]

ghost use Rattle.std.specs.Prelude.{◌≡◌, ◌+◌, ◌*◌, ◌≤◌, ◌<◌, length, get_or};
ghost use Rattle.std.proofs.lemmas.List.Edits.{sets};
ghost use Rattle.meaning.specs.Bytes.{u16_at};
ghost use Rattle.wire.specs.Wire.{u16_bytes};

// The byte at a place.
pub fn byte_at(b: &[u8], i: usize) -> u8
    ensures { result ≡ get_or b.now i 0 }
{
    if i < b.len() { b[i] } else { 0 }
}

// The number at a place.
pub fn u16_at(b: &[u8], i: usize) -> u16
    requires { i < 4294967296 }
    ensures { result ≡ u16_at b.now i }
{
    if i + 1 < b.len() {
        u16::from_le_bytes([b[i], b[i + 1]])
    } else {
        u16::from(byte_at(b, i))
    }
}

// Stores a number at a place.
pub fn put_u16(out: &mut [u8], i: usize, x: u16)
    requires { i + 2 ≤ length out.old }
    ensures { out.new ≡ sets out.old i (u16_bytes x) }
{
    let [low, high] = x.to_le_bytes();
    out[i] = low;
    out[i + 1] = high;
}
