// The sizes of a policy: its first twelve bytes, field by field in reading order. A field that is missing is refused by check 3, one out of its range by check 4.
#![tactic(auto)]

ghost use Rattle.std.specs.Prelude.{◌≡◌, ◌≤◌, length};
ghost use Rattle.model.specs.Field.{word_at};
ghost use Rattle.model.specs.Policy.{policy_field, sizes_of};
ghost use Rattle.policy_sizes.specs.Sizes.{in_range, size_byte, memory_field};

use limits::{MOST_ATOMS, MOST_MEMORY, MOST_REGIONS};
use model::{Refusal, Sizes};

// The largest counts among the sizes.
const REGION_COUNT: u32 = MOST_REGIONS as u32;

const ATOM_COUNT: u32 = MOST_ATOMS as u32;

// The number of the field at a position, if it is in its range.
fn in_range(number: u32, at: usize, least: u32, most: u32) -> Result<u32, Refusal>
    ensures { result ≡ in_range at least most number }
{
    if (least..=most).contains(&number) {
        return Ok(number);
    }
    Err(Refusal::PolicySize(at))
}

// The byte at a position, if it is there and in its range.
fn size_byte(bytes: &[u8], at: usize, least: u32, most: u32) -> Result<u32, Refusal>
    ensures { result ≡ size_byte bytes.now at least most }
{
    if bytes.len() <= at {
        return Err(Refusal::PolicyLength(bytes.len()));
    }
    in_range(u32::from(bytes[at]), at, least, most)
}

// The word at a position, if it is there.
fn word_field(bytes: &[u8], at: usize) -> Result<u32, Refusal>
    requires { at ≤ 8 }
    ensures { result ≡ policy_field bytes.now (word_at bytes.now (length bytes.now) at) }
{
    if bytes.len() < at + 4 {
        return Err(Refusal::PolicyLength(bytes.len()));
    }
    Ok(fields::word(bytes, at))
}

// M, if it is there and in its range.
fn memory_field(bytes: &[u8]) -> Result<u32, Refusal>
    ensures { result ≡ memory_field bytes.now }
{
    in_range(word_field(bytes, 4)?, 4, 1, MOST_MEMORY)
}

// The sizes, field by field in reading order.
pub fn read_sizes(bytes: &[u8]) -> Result<Sizes, Refusal>
    ensures { result ≡ sizes_of bytes.now }
{
    let regions = size_byte(bytes, 0, 1, REGION_COUNT)?;
    let precondition = size_byte(bytes, 1, 0, ATOM_COUNT)?;
    let postcondition = size_byte(bytes, 2, 0, ATOM_COUNT)?;
    size_byte(bytes, 3, 0, 0)?;
    let memory = memory_field(bytes)?;
    let limit = word_field(bytes, 8)?;
    Ok(Sizes {
        regions: regions as usize,
        precondition: precondition as usize,
        postcondition: postcondition as usize,
        memory,
        limit,
    })
}
