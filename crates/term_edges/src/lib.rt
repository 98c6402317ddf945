// Samples at the limits of paths, derivations, register terms and shifts, each judged and printed as in `edges`.
#![tactic(auto)]

use edges::Desk;
use sample_bytes::packages::Package;
use sample_bytes::policies::Policy;
use std::io;

// So many doublings, then a shift by so much.
fn shifted(doublings: u32, by: u32) -> Package {
    Package::Shifted { doublings, by }
}

// Paths of 512 instructions: loads, branches and a return; 512 branches, with 528 assumptions at the last, after which the code ends; and 511 loads,
// with 527 variables at the return.
pub fn longest_paths<R: Print>(desk: &mut Desk<R>) -> io::Result<()> {
    for (name, loads, returns) in [
        ("256 loads, 255 branches", 256, true),
        ("512 branches", 0, false),
        ("511 loads", 511, true),
    ] {
        desk.show(
            name,
            Policy::Impossible,
            Package::Longest { loads, returns },
        )?;
    }
    Ok(())
}

// 4,096 instructions evaluated in one block, on 32 paths, and 4,097; and 511 branches, whose taken edges lead on from one to the next.
pub fn many_paths<R: Print>(desk: &mut Desk<R>) -> io::Result<()> {
    for (name, first, branches, last, goals) in [
        ("4096 evaluated", 1, 5, 126, 32),
        ("4097 evaluated", 2, 5, 126, 32),
        ("511 taken edges", 0, 511, 0, 4000),
    ] {
        let package = Package::Branches {
            first,
            branches,
            last,
            goals,
        };
        desk.show(name, Policy::small(512), package)?;
    }
    Ok(())
}

// Derivations 32 and 33 levels deep.
pub fn depths<R: Print>(desk: &mut Desk<R>) -> io::Result<()> {
    desk.show("depth 32", Policy::small(1), Package::Deep(30))?;
    desk.show("depth 33", Policy::small(1), Package::Deep(31))
}

// Register terms of 255 nodes, and of 256: the same one, shifted.
pub fn term_sizes<R: Print>(desk: &mut Desk<R>) -> io::Result<()> {
    desk.show("255 nodes", Policy::small(8), Package::Doublings(7))?;
    desk.show("256 nodes", Policy::small(9), shifted(7, 0))
}

// A register term of 511 nodes.
pub fn doubled_term<R: Print>(desk: &mut Desk<R>) -> io::Result<()> {
    desk.show("511 nodes", Policy::small(9), Package::Doublings(8))
}

// Shifts by 31 and by 32, as instructions.
pub fn shift_immediates<R: Print>(desk: &mut Desk<R>) -> io::Result<()> {
    desk.show("op 11, i = 31", Policy::small(2), shifted(0, 31))?;
    desk.show("op 11, i = 32", Policy::small(2), shifted(0, 32))
}
