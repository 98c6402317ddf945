// The jumps' targets: check 12; and the search for the annotation at an index.
#![tactic(auto)]

pub mod search;

ghost use Rattle.std.specs.Prelude.{◌<◌};
ghost use Rattle.targets.specs.Targets.{TargetAllowed, TargetMet, TargetsMet};

use annotations::reading::Annotated;
use header::package::Package;
use model::{Instruction, Refusal};
use routine::instructions;

// The instruction's jump, if it is one, goes to a higher index than its own, or to an instruction that has an annotation.
fn target_allowed(annotations: &[Annotated], index: usize, instruction: Instruction) -> bool
    ensures { TargetAllowed annotations.now index instruction result }
{
    decoding::target_of(instruction).is_none_or(|target| {
        index < (target as usize) || search::position(annotations, target as usize).is_some()
    })
}

// Check 12 of the instruction at an index; its code has been checked.
fn check_target(routine: &Package, annotations: &[Annotated], index: usize) -> Result<(), Refusal>
    requires { index < routine.now.header.instructions }
    ensures { TargetMet routine.now.bytes.now routine.now.header annotations.now index result }
{
    let instruction = instructions::instruction(routine, index)?;
    if !target_allowed(annotations, index, instruction) {
        return Err(Refusal::Unannotated(index));
    }
    Ok(())
}

// Check 12 of every instruction in turn; the code has been checked, and the annotations have been read.
pub fn check_targets(routine: &Package, annotations: &[Annotated]) -> Result<(), Refusal>
    ensures { TargetsMet routine.now.bytes.now routine.now.header annotations.now result }
{
    for index in 0..routine.header.instructions {
        check_target(routine, annotations, index)?;
    }
    Ok(())
}
