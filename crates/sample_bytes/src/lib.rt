// Policies and packages for samples, written byte by byte into a lent buffer; a byte past the buffer is dropped. The functions of this file
// write at a position, and answer the position after what they wrote.
#![tactic(auto)]

ghost use Rattle.std.specs.Prelude.{◌≡◌, ℕ, ◌≤◌, ◌<◌, ◌+◌, ◌/◌, ◌%◌, max, min, length, get_or, set};

mod longest;
pub mod packages;
pub mod policies;
mod writing;

// One byte.
pub fn byte(out: &mut [u8], at: usize, x: u8) -> usize
    ensures written { out.new ≡ set out.old at x }
    ensures next { result ≡ max at (min (at + 1) (length out.old)) }
{
    if at < out.len() {
        out[at] = x;
        at + 1
    } else {
        at
    }
}

// Two bytes, low byte first.
pub fn half(out: &mut [u8], at: usize, x: u32) -> usize
    ensures written { out.new ≡ set (set out.old at (x % 256)) (at + 1) (x / 256 % 256) }
    ensures next { result ≡ max at (min (at + 2) (length out.old)) }
{
    let at = byte(out, at, (x % 256) as u8);
    byte(out, at, (x / 256 % 256) as u8)
}

// Four bytes, low byte first.
pub fn word(out: &mut [u8], at: usize, x: u32) -> usize
    ensures written { out.new ≡ set (set (set (set out.old at (x % 256)) (at + 1) (x / 256 % 256)) (at + 2) (x / 65536 % 256)) (at + 3) (x / 65536 / 256 % 256) }
    ensures next { result ≡ max at (min (at + 4) (length out.old)) }
{
    let at = half(out, at, x % 65536);
    half(out, at, x / 65536)
}

// The same byte so many times.
pub fn repeat(out: &mut [u8], at: usize, x: u8, times: u32) -> usize
    ensures written { (i : ℕ) → at ≤ i → i < at + times → i < length out.old → get_or out.new i 0 ≡ x }
    ensures before { (i : ℕ) → i < at → get_or out.new i 0 ≡ get_or out.old i 0 }
    ensures after { (i : ℕ) → at + times ≤ i → get_or out.new i 0 ≡ get_or out.old i 0 }
    ensures next { result ≡ max at (min (at + times) (length out.old)) }
{
    let mut next = at;
    for _ in 0..times {
        next = byte(out, next, x);
    }
    next
}
