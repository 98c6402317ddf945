// Policies.
ghost use Rattle.std.specs.Prelude.{◌≡◌, ◌≤◌, length};
ghost use Rattle.sample_bytes.specs.Buffer.{Same};

use crate::longest;
use crate::writing::Writer;

// A policy with one region: it assumes nothing, an equality, or what never holds.
#[derive(Clone, Copy)]
pub enum Policy {
    // a region to read and write, of so many words from a base on
    Region {
        memory: u32,
        limit: u32,
        base: u32,
        size: u8,
    },
    // c + (c + (.. + c)) = c, with so many sums on the left
    Sums(u32),
    // c >> count = c, where c is 0
    Shift(u8),
    // sixteen times 0 < 0, which never holds
    Impossible,
}

// The sizes of a policy with one region, and with so many atoms before.
fn sizes(writer: &mut Writer, precondition: u8, memory: u32, limit: u32)
    ensures { Same writer.old.out writer.new.out }
{
    writer.byte(1);
    writer.byte(precondition);
    writer.half(0);
    writer.word(memory);
    writer.word(limit);
}

// A policy with one region.
fn region(writer: &mut Writer, memory: u32, limit: u32, base: u32, size: u8)
    ensures { Same writer.old.out writer.new.out }
{
    sizes(writer, 0, memory, limit);
    writer.word(base);
    writer.word(u32::from(size) * 4 + 3);
}

// A policy up to the sides of its one atom, an equality that it assumes.
fn assuming_equal(writer: &mut Writer)
    ensures { Same writer.old.out writer.new.out }
{
    sizes(writer, 1, 1, 1);
    writer.word(0);
    writer.word(7);
    writer.byte(0);
}

impl Policy {
    // One word of memory, which may be read and written, under a step limit.
    pub fn small(limit: u32) -> Policy
        ensures { result ≡ Policy.Region 1 limit 0 1 }
    {
        Policy::Region {
            memory: 1,
            limit,
            base: 0,
            size: 1,
        }
    }

    // The policy's bytes, at the start of the buffer.
    pub fn write(self, out: &mut [u8]) -> &[u8]
        ensures few { length result.now ≤ length out.old }
        ensures place { result.ref_ptr ≡ out.entry.ref_ptr }
    {
        let mut writer = Writer::new(out);
        match self {
            Policy::Region {
                memory,
                limit,
                base,
                size,
            } => region(&mut writer, memory, limit, base, size),
            Policy::Sums(sums) => {
                assuming_equal(&mut writer);
                writer.repeat(2, sums);
                writer.repeat(0, 5 * (sums % 100) + 10);
            }
            Policy::Impossible => {
                sizes(&mut writer, 16, 1, 1);
                writer.word(0);
                writer.word(7);
                longest::atoms(&mut writer);
            }
            Policy::Shift(count) => {
                assuming_equal(&mut writer);
                writer.byte(5);
                writer.byte(count);
                writer.repeat(0, 10);
            }
        }
        writer.written()
    }
}
