// Samples at the limits of policies: regions and expressions, each judged and printed as in `edges`.
#![tactic(auto)]

use edges::Desk;
use sample_bytes::packages::Package;
use sample_bytes::policies::Policy;
use std::io;

// The package of each: a return.
const RETURN: Package = Package::Assignments(0);

// So much memory, with a region of so many words from a base on.
fn region(memory: u32, base: u32, size: u8) -> Policy {
    Policy::Region {
        memory,
        limit: 1,
        base,
        size,
    }
}

// Memory sizes 16,384 and 16,385, with a region of the last word.
pub fn memory_sizes<R: Print>(desk: &mut Desk<R>) -> io::Result<()> {
    desk.show("M = 16384", region(16384, 16383, 1), RETURN)?;
    desk.show("M = 16385", region(16385, 16384, 1), RETURN)
}

// A region that ends one word past the memory.
pub fn region_past_memory<R: Print>(desk: &mut Desk<R>) -> io::Result<()> {
    desk.show("region past M", region(16384, 16383, 2), RETURN)
}

// Expressions of 31 nodes, and with a 32nd.
pub fn node_counts<R: Print>(desk: &mut Desk<R>) -> io::Result<()> {
    desk.show("31 nodes", Policy::Sums(15), RETURN)?;
    desk.show("32nd node", Policy::Sums(16), RETURN)
}

// Shifts by 31 and by 32, as expressions of the policy.
pub fn shift_counts<R: Print>(desk: &mut Desk<R>) -> io::Result<()> {
    desk.show("tag 5, count 31", Policy::Shift(31), RETURN)?;
    desk.show("tag 5, count 32", Policy::Shift(32), RETURN)
}
