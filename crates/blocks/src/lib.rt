// Where a block starts: its assumptions and its credit.
#![tactic(auto)]

ghost use Rattle.std.specs.Prelude.{◌+◌, ◌≤◌, ◌<◌, length, get_or};
ghost use Rattle.model.specs.Verdict.{least_workspace};
ghost use Rattle.model.specs.Expression.{register_count};
ghost use Rattle.model.specs.Atom.{most_atoms};
ghost use Rattle.workspace.specs.Layout.{most_assumptions, most_table_nodes};
ghost use Rattle.nodes.specs.Atoms.{atom_in, AtomBelow};
ghost use Rattle.paths.specs.Walking.{PathIn};
ghost use Rattle.blocks.specs.Starting.{Assumed, Workspace, Variables, Started, Fresh, AllAssumed, EntryBlock, AnnotationBlock};

use annotations::reading::Annotated;
use limits::REGISTERS;
use nodes::Atom;
use paths::Path;
use policy::Condition;
use rule_reader::REGISTER_NODES;

// A path of a block, and the node of the block's credit.
#[derive(Clone, Copy)]
pub struct Block {
    pub path: Path,
    pub credit: usize,
}

// The path with a comparison of two nodes assumed besides.
pub fn assuming(ws: &mut [u32], path: Path, assumption: Atom) -> Path
    requires path_in { PathIn ws.old path }
    requires room { (path.assumptions < most_assumptions) × (path.top ≤ most_table_nodes) × (least_workspace ≤ length ws.old) }
    requires sides_below { AtomBelow path.top assumption }
    ensures { Assumed ws.old ws.new path (atom_in ws.old assumption) result }
{
    assumptions::push(ws, path.assumptions, path.top, assumption);
    Path {
        assumptions: path.assumptions + 1,
        ..path
    }
}

// Puts variables 0 to 15 at nodes 0 to 15.
fn variables(ws: &mut [u32])
    requires { least_workspace ≤ length ws.old }
    ensures { Variables ws.old ws.new register_count }
{
    for v in 0..REGISTERS {
        terms::put_variable(ws, v, v as u32);
    }
}

// The path at a block's start, with nothing assumed.
fn start(ws: &mut [u32], index: usize) -> Path
    requires { Workspace ws.old }
    ensures { Started ws.new index result }
{
    variables(ws);
    let registers = REGISTER_NODES;
    Path {
        counter: index,
        steps: 0,
        variables: REGISTERS,
        assumptions: 0,
        top: REGISTERS,
        registers,
    }
}

// The path with a condition's atoms assumed besides, which stand in `bytes`.
fn assume(bytes: &[u8], end: usize, condition: Condition, ws: &mut [u32], mut path: Path) -> Path
    requires end_in_bounds { end ≤ length bytes.now }
    requires fresh { Fresh ws.old path condition.atoms }
    ensures { AllAssumed ws.old ws.new path bytes.now end condition result }
{
    let source = path.source(bytes, end);
    let mut at = condition.at;
    for _ in 0..condition.atoms {
        let Ok(read) = atom_reader::atom(&source, ws, at, path.top) else {
            return path;
        };
        path = assuming(ws, path.raised(read.top), read.atom);
        at = read.next;
    }
    path
}

// The block at instruction 0: a condition is assumed, and the credit is a constant.
pub fn entry_block(conditions: &[u8], precondition: Condition, limit: u32, ws: &mut [u32]) -> Block
    requires workspace { Workspace ws.old }
    requires few_atoms { precondition.atoms ≤ most_atoms }
    ensures { EntryBlock ws.new conditions.now precondition limit result }
{
    let first = start(ws, 0);
    terms::put_constant(ws, REGISTERS, limit);
    let path = assume(
        conditions,
        conditions.len(),
        precondition,
        ws,
        first.raised(REGISTERS + 1),
    );
    Block {
        path,
        credit: REGISTERS,
    }
}

// The block at an annotation, which stands in `bytes`: its atoms are assumed, and the credit is its own. Check 11 has read the annotation
// before, so that it can be read here.
pub fn annotation_block(bytes: &[u8], end: usize, annotated: Annotated, ws: &mut [u32]) -> Block
    requires workspace { Workspace ws.old }
    requires end_in_bounds { (end ≤ length bytes.now) × (annotated.at + 2 < end) }
    requires few_atoms { get_or bytes.now (annotated.at + 2) 0 ≤ most_atoms }
    ensures { AnnotationBlock ws.new bytes.now end annotated result }
{
    let first = start(ws, annotated.index);
    let source = first.source(bytes, end);
    let Ok(credit) = term_reader::expression(&source, ws, annotated.at + 3, REGISTERS) else {
        return Block {
            path: first,
            credit: 0,
        };
    };
    let condition = Condition {
        at: credit.next,
        atoms: usize::from(bytes[annotated.at + 2]),
    };
    let path = assume(bytes, end, condition, ws, first.raised(credit.top));
    Block {
        path,
        credit: credit.node,
    }
}
