// The loader for hosts in C and Rust: numbers and slices only. A slice is passed as a pointer and a length; each answer goes into an
// array of the caller's. The answers to a package whose n is not 257 to 512 are those with the former limit (`longer`).
#![tactic(auto)]

ghost use Rattle.std.specs.Prelude.{◌≡◌};
ghost use Rattle.model.specs.Package.{proof_section};
ghost use Rattle.model.specs.Runner.{run_of};
ghost use Rattle.former.specs.Instructions.{LongerRoutines};
ghost use Rattle.host_interface.specs.Exported.{CheckExported, RunExported, FindExported};

// loader::check: number, place and goals go into `answer`.
#[unsafe(no_mangle)]
pub extern "C" fn pcc_check(
    workspace: &mut [u32],
    policy: &[u8],
    routine: &[u8],
    answer: &mut [u64; 3],
)
    ensures longer { LongerRoutines routine.now }
    ensures exported { CheckExported workspace.old policy.now routine.now workspace.new answer.new }
{
    let verdict = loader::check(workspace, policy, routine);
    *answer = [
        u64::from(verdict.number),
        verdict.place as u64,
        verdict.goals as u64,
    ];
}

// loader::run: number, place and steps go into `answer`.
#[unsafe(no_mangle)]
pub extern "C" fn pcc_run(
    policy: &[u8],
    routine: &[u8],
    registers: &mut [u32],
    memory: &mut [u32],
    budget: u32,
    answer: &mut [u64; 3],
)
    ensures longer { LongerRoutines routine.now }
    ensures exported { RunExported (run_of policy.now routine.now registers.old memory.old budget) policy.now memory.old registers.new memory.new answer.new }
{
    let outcome = loader::run(policy, routine, registers, memory, budget);
    *answer = [
        u64::from(outcome.number),
        outcome.place as u64,
        u64::from(outcome.steps),
    ];
}

// Where the proof section starts in a package: 0 where check 7 refuses it.
fn start(bytes: &[u8]) -> usize
    ensures { result ≡ (proof_section bytes.now).start }
{
    header::read_package(bytes).map_or(0, |routine| routine.proof_start())
}

// loader::find_answer and loader::find_proof: number, place and the proof section's start go into `answer`, its length is the result.
#[unsafe(no_mangle)]
pub extern "C" fn pcc_find_proof(routine: &[u8], answer: &mut [u64; 3]) -> usize
    ensures longer { LongerRoutines routine.now }
    ensures exported { FindExported routine.now answer.new result }
{
    let finding = loader::find_answer(routine);
    let start = start(routine);
    *answer = [
        u64::from(finding.number),
        finding.place as u64,
        start as u64,
    ];
    loader::find_proof(routine).len()
}
