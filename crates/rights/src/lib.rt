// Who may read or write a word.
#![tactic(auto)]

ghost use Rattle.std.specs.Prelude.{◌≡◌, ◌+◌};
ghost use Rattle.model.specs.Policy.{covers, overlaps, all_writable};
ghost use Rattle.rights.specs.Right.{grants, readable_in, writable_in, grants_throughout};

use model::{Region, Right};

// Where the region ends: base plus length, as a whole number.
fn end(region: &Region) -> usize
    ensures { result ≡ region.now.base + region.now.size }
{
    region.base as usize + region.size as usize
}

// Whether the region lies over the word.
fn covers(region: &Region, w: usize) -> bool
    ensures { result ≡ covers region.now w }
{
    (region.base as usize <= w) & (w < end(region))
}

// Whether the two regions have a word in common.
fn overlap(region: &Region, other: &Region) -> bool
    ensures { result ≡ overlaps region.now other.now }
{
    ((region.base as usize) < end(other)) & ((other.base as usize) < end(region))
}

// Whether the region gives the right.
fn grants(region: &Region, right: Right) -> bool
    ensures { result ≡ grants right region.now }
{
    let given = match right {
        Right::Read => 1,
        Right::Write => 2,
    };
    (region.rights == given) | (region.rights == 3)
}

// Whether no region that overlaps this one lacks the right to write.
fn clear(regions: &[Region], region: &Region) -> bool
    ensures { result ≡ all_writable (overlaps region.now) regions.now }
{
    regions.iter().all(|other| !overlap(region, other) || grants(other, Right::Write))
}

// Whether the word may be read: it lies below the memory's end, and some region over it gives the right.
pub fn readable(regions: &[Region], memory: usize, w: usize) -> bool
    ensures { result ≡ readable_in memory regions.now w }
{
    w < memory
        && regions
            .iter()
            .any(|region| covers(region, w) && grants(region, Right::Read))
}

// Whether the word may be written: it lies below the memory's end, some region over it gives the right, and none over it lacks it.
pub fn writable(regions: &[Region], memory: usize, w: usize) -> bool
    ensures { result ≡ writable_in memory regions.now w }
{
    let mut given = false;
    for region in regions {
        if covers(region, w) {
            if !grants(region, Right::Write) {
                return false;
            }
            given = true;
        }
    }
    (w < memory) & given
}

// Whether the region, one of these, gives the right to each of its words: to write, it also overlaps none that lacks the right.
pub fn grants_throughout(regions: &[Region], region: &Region, right: Right) -> bool
    ensures { result ≡ grants_throughout right regions.now region.now }
{
    match right {
        Right::Read => grants(region, Right::Read),
        Right::Write => grants(region, Right::Write) & clear(regions, region),
    }
}
