// The loader's public face. The answers to a package whose n is not 257 to 512 are those with the former limit (clauses `former`).
#![tactic(auto)]

ghost use Rattle.std.specs.Prelude.{◌≡◌, ◌+◌, ℕ, false, length};
ghost use Rattle.std.proofs.Math.ListN.{get_elem?};
ghost use Rattle.model.specs.Package.{proof_section, finder_answer};
ghost use Rattle.model.specs.Runner.{run_of};
ghost use Rattle.model.specs.Verdict.{check_of, workspace_after};
ghost use Rattle.model.specs.Property.{Safe};
ghost use Rattle.model.specs.Kept.{Protected};
ghost use Rattle.former.specs.Instructions.{long_routine, former_check, former_run, former_section, former_finding};

use model::{Finding, Outcome, Verdict};

// Judges a package under a policy, with a workspace of at least 16,384 words: the number, place and goals that the definitions give. The
// workspace is left all zero; after 1, untouched. Where the answer is 0, property 3 holds of that policy and package.
pub fn check(workspace: &mut [u32], policy: &[u8], routine: &[u8]) -> Verdict
    ensures verdict { result ≡ check_of (length workspace.old) policy.now routine.now }
    ensures left { workspace.new ≡ workspace_after workspace.old }
    ensures safe { result.number ≡ 0 → Safe policy.now routine.now }
    ensures former { long_routine routine.now ≡ false → result ≡ former_check (length workspace.old) policy.now routine.now }
{
    checker::check(workspace, policy, routine)
}

// Runs a routine under a policy on lent registers and memory, for at most `budget` steps: the number, place and steps that the
// definitions give, and in the registers and memory the machine's state after exactly those steps. A memory word that the policy does not
// make writable keeps what it held.
pub fn run(
    policy: &[u8],
    routine: &[u8],
    registers: &mut [u32],
    memory: &mut [u32],
    budget: u32,
) -> Outcome
    ensures outcome { record { outcome = result; registers = registers.new; memory = memory.new } ≡ run_of policy.now routine.now registers.old memory.old budget }
    ensures kept { (word : ℕ) → Protected policy.now word → get_elem? memory.new word ≡ get_elem? memory.old word }
    ensures former { long_routine routine.now ≡ false → record { outcome = result; registers = registers.new; memory = memory.new } ≡ former_run policy.now routine.now registers.old memory.old budget }
{
    runner::run(policy, routine, registers, memory, budget)
}

// The proof section of a package, as that part of the caller's own bytes; an empty part where check 7 refuses the package.
pub fn find_proof(routine: &[u8]) -> &[u8]
    ensures contents { result.now ≡ (proof_section routine.now).contents }
    ensures position { (result.ref_ptr.0 ≡ routine.entry.ref_ptr.0) × (result.ref_ptr.1 ≡ routine.entry.ref_ptr.1 + (proof_section routine.now).start) }
    ensures former { long_routine routine.now ≡ false → (result.now ≡ (former_section routine.now).contents) × (result.ref_ptr.1 ≡ routine.entry.ref_ptr.1 + (former_section routine.now).start) }
{
    header::finder::find_proof(routine)
}

// Why the finder hands back an empty part: 7 and its place, or 0 and 0 where check 7 passes.
pub fn find_answer(routine: &[u8]) -> Finding
    ensures answer { result ≡ finder_answer routine.now }
    ensures former { long_routine routine.now ≡ false → result ≡ former_finding routine.now }
{
    header::finder::find_answer(routine)
}
