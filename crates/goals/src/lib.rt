// One goal, and the goals of atoms: each is made, derived at once where the proof has been read to, counted and forgotten.
#![tactic(auto)]

ghost use Rattle.std.specs.Prelude.{◌≡◌, ◌≤◌, length};
ghost use Rattle.claims.specs.Parts.{claim_of};
ghost use Rattle.paths.specs.Walking.{ClaimIn};
ghost use Rattle.workspace.specs.Room.{derivation_room, atom_room};
ghost use Rattle.goals.specs.Room.{Going};
ghost use Rattle.goals.specs.Settling.{GoalJudged, AtomsJudged};

use claims::{Claim, Goal, Scope};
use derivation::Grounds;
use model::Refusal;
use paths::Path;
use policy::Condition;
use refusals::Refused;

// Where the proof has been read to, and how many goals are derived.
#[derive(Clone, Copy)]
pub struct Progress {
    pub at: usize,
    pub goals: usize,
}

impl Progress {
    // A refusal, with the goals derived by now.
    pub fn refused(self, refusal: Refusal) -> Refused
        ensures { result ≡ record { refusal = refusal; goals = self.goals } }
    {
        Refused {
            refusal,
            goals: self.goals,
        }
    }
}

// One claim of the path, derived where the proof has been read to: the progress after it, or the refusal and the goals derived by then.
pub fn goal(
    grounds: &Grounds,
    ws: &mut [u32],
    path: Path,
    claim: Claim,
    progress: Progress,
) -> Result<Progress, Refused>
    requires going { Going ws.old grounds.now.bytes.now derivation_room path progress }
    requires claim_in { ClaimIn ws.old path claim }
    ensures { GoalJudged ws.old ws.new grounds.now.bytes.now grounds.now.regions.now path progress result (claim_of ws.old claim) }
{
    let made = Goal {
        claim,
        instruction: path.counter,
    };
    let scope = Scope {
        assumptions: path.assumptions,
        variables: path.variables,
    };
    let derived = derivation::check_goal(grounds, scope, ws, path.top, made, progress.at);
    let at = derived.map_err(|refusal| progress.refused(refusal))?;
    Ok(Progress {
        at,
        goals: progress.goals + 1,
    })
}

// The goals of a condition's atoms, which stand in `bytes`, over the path's registers. Check 6 or 11 has read them before, so that they can be
// read here.
pub fn atoms(
    grounds: &Grounds,
    bytes: &[u8],
    end: usize,
    condition: Condition,
    ws: &mut [u32],
    path: Path,
    progress: Progress,
) -> Result<Progress, Refused>
    requires end_in_bounds { end ≤ length bytes.now }
    requires going { Going ws.old grounds.now.bytes.now atom_room path progress }
    ensures { AtomsJudged ws.old ws.new grounds.now.bytes.now grounds.now.regions.now path progress result bytes.now end condition }
{
    let source = path.source(bytes, end);
    let mut at = condition.at;
    let mut after = progress;
    for _ in 0..condition.atoms {
        let found = atom_reader::atom(&source, ws, at, path.top);
        let read = found.map_err(|_| after.refused(Refusal::AnnotationBytes(at)))?;
        let claim = Claim::Atom(read.atom);
        after = goal(grounds, ws, path.raised(read.top), claim, after)?;
        at = read.next;
    }
    Ok(after)
}
