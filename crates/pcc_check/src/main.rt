// The check program: judges the routine of routine.bin under the policy of policy.bin, and prints the verdict.
#![tactic(auto)]

use console::{POLICY, ROUTINE};
use limits::LEAST_WORKSPACE;
use std::io;

fn main(rt: HostRuntime) -> io::Result<()> {
    if let Some(policy) = console::load(&rt, b"policy.bin", &mut [0; POLICY])
        && let Some(routine) = console::load(&rt, b"routine.bin", &mut [0; ROUTINE])
    {
        let verdict = loader::check(&mut [0; LEAST_WORKSPACE], policy, routine);
        println!(rt; "{verdict}")?;
    }
    Ok(())
}
