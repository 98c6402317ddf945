// Arrivals at annotations, the edges of branches, and returns.
#![tactic(auto)]

ghost use Rattle.std.specs.Prelude.{◌≡◌, ◌≤◌, []};
ghost use Rattle.model.specs.Goals.{goes, returning};
ghost use Rattle.model.specs.Package.{most_instructions};
ghost use Rattle.workspace.specs.Room.{goal_room};
ghost use Rattle.nodes.specs.Table.{term_at};
ghost use Rattle.nodes.specs.Atoms.{atom_in, AtomBelow};
ghost use Rattle.goals.specs.Judging.{Reached};
ghost use Rattle.paths.specs.Walking.{path_of, NodeIn};
ghost use Rattle.goals.specs.Room.{Going};
ghost use Rattle.moves.specs.Moves.{RoomFor, Moves};
ghost use Rattle.jumps.specs.Jumps.{opposite_of, Returning, Edge, Arrives};

use arrivals;
use blocks::Block;
use derivation::Grounds;
use goals::Progress;
use model::Comparison;
use moves::Moved;
use nodes::Atom;
use paths::Path;
use policy::Condition;
use refusals::Refused;
use setting::Tables;
use targets::search;

// The goals of a path's arrival at its counter, if that is annotated: the progress after them, or the refusal and the goals derived by then.
pub fn arrive(
    tables: &Tables,
    ws: &mut [u32],
    block: Block,
    progress: Progress,
) -> Result<Option<Progress>, Refused>
    requires going { Going ws.old tables.now.routine.bytes.now goal_room block.path progress }
    requires credit_in { NodeIn ws.old block.path block.credit }
    requires counter_in { block.path.counter ≤ most_instructions }
    ensures { Arrives ws.old ws.new tables.now (term_at ws.old block.credit) block.path progress result }
{
    let Some(k) = search::position(tables.annotations, block.path.counter) else {
        return Ok(None);
    };
    let at = tables.annotations[k].at;
    let end = tables.routine.proof_start();
    let grounds = tables.grounds();
    let after = arrivals::arrival(&grounds, end, at, ws, block, progress)?;
    Ok(Some(after))
}

// The comparison that holds where another does not.
pub fn opposite(claimed: Atom) -> Atom
    ensures { result ≡ opposite_of claimed.kind claimed.left claimed.right }
{
    let Atom { kind, left, right } = claimed;
    match kind {
        Comparison::Equal => Atom::new(Comparison::Unequal, left, right),
        Comparison::Unequal => Atom::new(Comparison::Equal, left, right),
        Comparison::Less => Atom::new(Comparison::AtMost, right, left),
        Comparison::AtMost => Atom::new(Comparison::Less, right, left),
    }
}

// An edge of a branch: the path with one instruction more run, at an index, and with a comparison assumed there besides. What stands above the path
// is overwritten.
pub fn edge(ws: &mut [u32], path: Path, index: usize, assumption: Atom) -> Path
    requires room_for { RoomFor ws.old path 1 }
    requires sides_below { AtomBelow path.top assumption }
    ensures { Edge ws.old ws.new path index (atom_in ws.old assumption) result }
{
    blocks::assuming(ws, path.stepped(index), assumption)
}

// return: the postcondition's atoms, which stand in `conditions`, and the credit
pub fn return_from(
    grounds: &Grounds,
    conditions: &[u8],
    postcondition: Condition,
    ws: &mut [u32],
    block: Block,
    progress: Progress,
) -> Result<Moved, Refused>
    requires room_for { RoomFor ws.old block.path 1 }
    requires credit_in { NodeIn ws.old block.path block.credit }
    requires reached { Reached grounds.now.bytes.now progress }
    ensures { Moves ws.old ws.new grounds.now.bytes.now (Returning conditions.now postcondition grounds.now.regions.now) (term_at ws.old block.credit) (λ policy routine. goes (returning (path_of ws.old block.path) (term_at ws.old block.credit) policy.postcondition) []) block.path progress result }
{
    let after = arrivals::returning(grounds, conditions, postcondition, ws, block, progress)?;
    Ok(Moved::Ended(after))
}
