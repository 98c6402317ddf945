// Samples and edges of documents 01 and 02 that are not marked (P), with the answers that the checker gives for them: one line each.
#![tactic(auto)]

use edges::Desk;
use limits::{LEAST_WORKSPACE, MOST_BYTES};
use std::io;

// One byte more than the longest package.
const BYTES: usize = MOST_BYTES + 1;

fn main(rt: HostRuntime) -> io::Result<()> {
    let mut desk = Desk {
        rt: &rt,
        workspace: &mut [0; LEAST_WORKSPACE],
        policy: &mut [0; 256],
        routine: &mut [0; BYTES],
    };
    edges::instruction_counts(&mut desk)?;
    term_edges::longest_paths(&mut desk)?;
    term_edges::many_paths(&mut desk)?;
    policy_edges::memory_sizes(&mut desk)?;
    policy_edges::region_past_memory(&mut desk)?;
    term_edges::depths(&mut desk)?;
    policy_edges::node_counts(&mut desk)?;
    term_edges::term_sizes(&mut desk)?;
    term_edges::doubled_term(&mut desk)?;
    term_edges::shift_immediates(&mut desk)?;
    policy_edges::shift_counts(&mut desk)?;
    edges::longest(&mut desk)?;
    edges::short_workspace(&mut desk)
}
