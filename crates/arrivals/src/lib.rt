// Goals of a path at an annotation that is reached and at a return: atoms, and the credit. Each is derived at once.
#![tactic(auto)]

ghost use Rattle.std.specs.Prelude.{◌+◌, ◌<◌, ◌≤◌, length};
ghost use Rattle.nodes.specs.Table.{term_at};
ghost use Rattle.paths.specs.Walking.{NodeIn};
ghost use Rattle.workspace.specs.Room.{credit_room, goal_room};
ghost use Rattle.goals.specs.Room.{Going};
ghost use Rattle.arrivals.specs.Arriving.{CreditsJudged, ArrivalJudged, ReturnJudged};

use blocks::Block;
use claims::Claim;
use derivation::Grounds;
use goals::Progress;
use model::{Comparison, Refusal};
use nodes::{Atom, Operation};
use policy::Condition;
use refusals::Refused;

// The two goals on the credit of a path that arrives: the instructions run at most the credit, and what is owed at most the rest of it.
fn credits(
    grounds: &Grounds,
    ws: &mut [u32],
    block: Block,
    owed: usize,
    progress: Progress,
) -> Result<Progress, Refused>
    requires going { Going ws.old grounds.now.bytes.now credit_room block.path progress }
    requires credit_in { NodeIn ws.old block.path block.credit }
    requires owed_in { NodeIn ws.old block.path owed }
    ensures { CreditsJudged ws.old ws.new grounds.now.bytes.now grounds.now.regions.now block.path progress result (term_at ws.old block.credit) (term_at ws.old owed) }
{
    let spent = block.path.top;
    let rest = spent + 1;
    terms::put_constant(ws, spent, block.path.steps as u32);
    terms::put_pair(ws, rest, Operation::Difference, block.credit, spent);
    let inner = block.path.raised(rest + 1);
    let covered = Claim::Atom(Atom::new(Comparison::AtMost, spent, block.credit));
    let after = goals::goal(grounds, ws, inner, covered, progress)?;
    let left = Claim::Atom(Atom::new(Comparison::AtMost, owed, rest));
    goals::goal(grounds, ws, inner, left, after)
}

// The goals of a path that has arrived at the annotation that stands at `at`: its atoms, the instructions run at most the credit, and its
// own credit at most the rest. Check 11 has read the annotation before, so that it can be read here.
pub fn arrival(
    grounds: &Grounds,
    end: usize,
    at: usize,
    ws: &mut [u32],
    block: Block,
    progress: Progress,
) -> Result<Progress, Refused>
    requires end_in_bounds { (end ≤ length grounds.now.bytes.now) × (at + 2 < end) }
    requires going { Going ws.old grounds.now.bytes.now goal_room block.path progress }
    requires credit_in { NodeIn ws.old block.path block.credit }
    ensures { ArrivalJudged ws.old ws.new grounds.now.bytes.now grounds.now.regions.now block.path progress result (term_at ws.old block.credit) end at }
{
    let bytes = grounds.bytes;
    let source = block.path.source(bytes, end);
    let found = term_reader::expression(&source, ws, at + 3, block.path.top);
    let owed = found.map_err(|_| progress.refused(Refusal::AnnotationBytes(at)))?;
    let inner = Block {
        path: block.path.raised(owed.top),
        ..block
    };
    let condition = Condition {
        at: owed.next,
        atoms: usize::from(bytes[at + 2]),
    };
    let after = goals::atoms(grounds, bytes, end, condition, ws, inner.path, progress)?;
    credits(grounds, ws, inner, owed.node, after)
}

// The goals of a return: the atoms of the postcondition, and the instructions run, the return counted, at most the credit.
pub fn returning(
    grounds: &Grounds,
    conditions: &[u8],
    postcondition: Condition,
    ws: &mut [u32],
    block: Block,
    progress: Progress,
) -> Result<Progress, Refused>
    requires going { Going ws.old grounds.now.bytes.now goal_room block.path progress }
    requires credit_in { NodeIn ws.old block.path block.credit }
    ensures { ReturnJudged ws.old ws.new grounds.now.bytes.now grounds.now.regions.now block.path progress result (term_at ws.old block.credit) conditions.now postcondition }
{
    let path = block.path;
    let end = conditions.len();
    let after = goals::atoms(grounds, conditions, end, postcondition, ws, path, progress)?;
    let spent = path.top;
    terms::put_constant(ws, spent, (path.steps + 1) as u32);
    let inner = path.raised(spent + 1);
    let covered = Claim::Atom(Atom::new(Comparison::AtMost, spent, block.credit));
    goals::goal(grounds, ws, inner, covered, after)
}
