// Symbolic evaluation of a routine: blocks in order, each goal derived as it arises.
#![tactic(auto)]

pub mod all_blocks;

ghost use Rattle.std.specs.Prelude.{◌≡◌};
ghost use Rattle.model.specs.Policy.{Policy as ModelPolicy};
ghost use Rattle.model.specs.Routine.{Routine};
ghost use Rattle.model.specs.Goals.{trace_of};
ghost use Rattle.model.specs.Verdict.{judge};
ghost use Rattle.blocks.specs.Starting.{Workspace};
ghost use Rattle.setting.specs.Setting.{Stands};
ghost use Rattle.evaluation.specs.Blocks.{verdict_of};

use goals::Progress;
use model::Refusal;
use refusals::Refused;
use setting::Setting;

// The goals of a routine that passed checks 7 to 12, under a policy that passed checks 3 to 6: they are derived as they arise, and no byte
// of the proof is left.
pub fn evaluate(setting: &Setting, ws: &mut [u32]) -> Result<usize, Refused>
    requires { Workspace ws.old }
    ensures { (policy : ModelPolicy) (routine : Routine) → Stands setting.now policy routine → verdict_of result ≡ judge setting.now.tables.routine.bytes.now policy (trace_of policy routine) routine.proof 0 }
{
    let start = Progress {
        at: setting.tables.routine.proof_start(),
        goals: 0,
    };
    let progress = all_blocks::evaluate_blocks(setting, ws, start)?;
    if progress.at != setting.tables.routine.bytes.len() {
        return Err(progress.refused(Refusal::ProofLeft(progress.at)));
    }
    Ok(progress.goals)
}
