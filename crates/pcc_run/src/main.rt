// The run program: runs the routine of routine.bin under the policy of policy.bin from the state of start.bin, and prints the answer.
#![tactic(auto)]

ghost use Rattle.std.specs.Prelude.{◌≡◌, ◌≤◌, length};
ghost use Rattle.model.specs.Runner.{run_of};
ghost use Rattle.pcc_run.specs.Start.{most_start, budget_in, register_words, memory_words, registers_in, memory_in};

use console::{POLICY, ROUTINE};
use limits::{MOST_MEMORY, REGISTERS};
use model::Outcome;
use std::io;

// The bytes of a start file that can decide the answer, and one more.
const START: usize = 4 * (MEMORY_AT + MEMORY);

// The words of memory that can decide the answer, and where the first of them stands in a start file, after the budget and the registers.
const MEMORY: usize = MOST_MEMORY as usize + 1;

const MEMORY_AT: usize = 1 + REGISTERS;

// The first word of a start file, or 0 where there is none.
#[tactic(auto, using(crate::proofs::Laws::no_budget, crate::proofs::Laws::some_budget))]
fn budget(start: &[u8]) -> u32
    ensures { result ≡ budget_in start.now }
{
    if start.len() < 4 {
        0
    } else {
        fields::word(start, 0)
    }
}

// The run from the state in a start file's bytes, on registers and memory with as many words as it holds for each.
fn run_on(
    policy: &[u8],
    routine: &[u8],
    start: &[u8],
    registers: &mut [u32],
    memory: &mut [u32],
) -> Outcome
    requires registers_len { length registers.old ≡ register_words start.now }
    requires memory_len { length memory.old ≡ memory_words start.now }
    ensures { result ≡ (run_of policy.now routine.now (registers_in start.now) (memory_in start.now) (budget_in start.now)).outcome }
{
    console::words(start, 1, registers);
    console::words(start, MEMORY_AT, memory);
    loader::run(policy, routine, registers, memory, budget(start))
}

// The run from the state in a start file's bytes.
fn run_start(policy: &[u8], routine: &[u8], start: &[u8]) -> Outcome
    requires { length start.now ≤ most_start }
    ensures { result ≡ (run_of policy.now routine.now (registers_in start.now) (memory_in start.now) (budget_in start.now)).outcome }
{
    let words = start.len() / 4;
    let mut registers = [0u32; REGISTERS];
    let mut memory = [0u32; MEMORY];
    // the words after the budget, and those after the registers
    let held = words.saturating_sub(1).min(REGISTERS);
    let size = words.saturating_sub(MEMORY_AT);
    run_on(
        policy,
        routine,
        start,
        &mut registers[..held],
        &mut memory[..size],
    )
}

fn main(rt: HostRuntime) -> io::Result<()> {
    if let Some(policy) = console::load(&rt, b"policy.bin", &mut [0; POLICY])
        && let Some(routine) = console::load(&rt, b"routine.bin", &mut [0; ROUTINE])
        && let Some(start) = console::load(&rt, b"start.bin", &mut [0; START])
    {
        let outcome = run_start(policy, routine, start);
        println!(rt; "{outcome}")?;
    }
    Ok(())
}
