// The runner: checks 3 to 6, 2, 7, 8, 9, and then the machine's run.
#![tactic(auto)]

ghost use Rattle.std.specs.Prelude.{◌≡◌, ◌≤◌, length};
ghost use Rattle.model.specs.Expression.{register_count};
ghost use Rattle.runner.specs.Checks.{refusal_outcome, outcome_of, CodeRuns, Runs};

use header::package::Package;
use limits::{MOST_INSTRUCTIONS, REGISTERS};
use model::{Instruction, Outcome, Refusal, Region};
use routine::instructions;

// A routine of so many instructions at most is decoded into as many lines, so that a short one is not kept waiting while lines are made blank.
const SHORT: usize = 64;

// The answer of a run that a check refuses.
fn refused(refusal: Refusal) -> Outcome
    ensures { result ≡ refusal_outcome refusal }
{
    Outcome {
        number: refusals::number(refusal),
        place: refusals::place(refusal),
        steps: 0,
    }
}

// Runs a routine that is decoded into the lines.
fn run_in(
    lines: &mut [Instruction],
    routine: &Package,
    regions: &[Region],
    registers: &mut [u32],
    memory: &mut [u32],
    budget: u32,
) -> Result<Outcome, Refusal>
    requires room { routine.now.header.instructions ≤ length lines.old }
    requires sixteen { length registers.old ≡ register_count }
    ensures { CodeRuns routine.now.bytes.now routine.now.header regions.now registers.old memory.old budget result registers.new memory.new }
{
    let code = instructions::read_code(routine, lines)?;
    Ok(runs::run_code(code, regions, registers, memory, budget))
}

// Checks 8 and 9, and the run of a routine that passes them.
fn run_routine(
    routine: &Package,
    regions: &[Region],
    registers: &mut [u32],
    memory: &mut [u32],
    budget: u32,
) -> Result<Outcome, Refusal>
    requires { length registers.old ≡ register_count }
    ensures { CodeRuns routine.now.bytes.now routine.now.header regions.now registers.old memory.old budget result registers.new memory.new }
{
    if routine.header.instructions <= SHORT {
        let mut lines = [instructions::BLANK; SHORT];
        return run_in(&mut lines, routine, regions, registers, memory, budget);
    }
    let mut lines = [instructions::BLANK; MOST_INSTRUCTIONS];
    run_in(&mut lines, routine, regions, registers, memory, budget)
}

// The run's answer, or what the first check that fails refuses.
fn run_checked(
    policy: &[u8],
    bytes: &[u8],
    registers: &mut [u32],
    memory: &mut [u32],
    budget: u32,
) -> Result<Outcome, Refusal>
    ensures { Runs policy.now bytes.now registers.old memory.old budget (outcome_of result) registers.new memory.new }
{
    let granted = policy::read_policy(policy)?;
    if !((registers.len() == REGISTERS) & (memory.len() == granted.memory as usize)) {
        return Err(Refusal::WrongStart);
    }
    let routine = header::read_package(bytes)?;
    let regions = granted.regions.as_slice();
    run_routine(&routine, regions, registers, memory, budget)
}

// Checks the policy, the lent words and the package, and runs it on the lent registers and memory.
pub fn run(
    policy: &[u8],
    bytes: &[u8],
    registers: &mut [u32],
    memory: &mut [u32],
    budget: u32,
) -> Outcome
    ensures { Runs policy.now bytes.now registers.old memory.old budget result registers.new memory.new }
{
    run_checked(policy, bytes, registers, memory, budget).unwrap_or_else(refused)
}
