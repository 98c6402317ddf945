// Numbers in files, low byte first, and the operations on words.
#![tactic(auto)]

ghost use Rattle.std.specs.Prelude.{◌≡◌, ◌+◌, ◌<◌, ◌≤◌, length};
ghost use Rattle.model.specs.Word.{add_w, sub_w, mask_w, shift_w, le16, le32};

// The number in the two bytes at a position.
#[tactic(auto, unfolding(model::specs::Word::le16))]
pub fn half(bytes: &[u8], at: usize) -> usize
    requires { at + 2 ≤ length bytes.now }
    ensures { (result ≡ le16 bytes.now at) × (result < 65536) }
{
    usize::from(u16::from_le_bytes([bytes[at], bytes[at + 1]]))
}

// The number in the four bytes at a position.
#[tactic(auto, unfolding(model::specs::Word::le16, model::specs::Word::le32))]
pub fn word(bytes: &[u8], at: usize) -> u32
    requires { at + 4 ≤ length bytes.now }
    ensures { result ≡ le32 bytes.now at }
{
    u32::from_le_bytes([bytes[at], bytes[at + 1], bytes[at + 2], bytes[at + 3]])
}

// The sum modulo 2^32.
#[tactic(auto, unfolding(model::specs::Word::add_w))]
pub fn add(a: u32, b: u32) -> u32
    ensures { result ≡ add_w a b }
{
    a.wrapping_add(b)
}

// The difference modulo 2^32.
#[tactic(auto, unfolding(model::specs::Word::sub_w))]
pub fn sub(a: u32, b: u32) -> u32
    ensures { result ≡ sub_w a b }
{
    a.wrapping_sub(b)
}

// The bits that both words have.
#[tactic(auto, unfolding(model::specs::Word::mask_w))]
pub fn mask(a: u32, b: u32) -> u32
    ensures { result ≡ mask_w a b }
{
    a & b
}

// The word shifted right; 32 bits and more leave nothing of it.
#[tactic(auto, using(crate::proofs::Laws::shifted))]
pub fn shift(a: u32, count: u32) -> u32
    ensures { result ≡ shift_w count a }
{
    a.checked_shr(count).unwrap_or(0)
}
