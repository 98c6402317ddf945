// The walk along a path, instruction by instruction, and the paths that a branch divides it into.
#![tactic(auto)]

ghost use Rattle.std.specs.Prelude.{◌≡◌, ◌<◌, ◌≤◌};
ghost use Rattle.nodes.specs.Atoms.{AtomBelow};
ghost use Rattle.nodes.specs.Table.{term_at};
ghost use Rattle.decoding.specs.Decoding.{Formed};
ghost use Rattle.targets.specs.Targets.{Ahead};
ghost use Rattle.goals.specs.Judging.{Reached};
ghost use Rattle.paths.specs.Walking.{path_of, NodeIn};
ghost use Rattle.moves.specs.Moves.{going_on};
ghost use Rattle.walks.specs.Walks.{count_of, Toward, RoomUp, RoomOn, Fetched, Visited, turned, Turns, Advances, BranchSteps, walked, followed, Parts};

use blocks::Block;
use goals::Progress;
use model::{Comparison, Instruction, Refusal};
use moves::{Moved, assignments};
use nodes::{Atom, Operation};
use paths::Path;
use refusals::Refused;
use routine::instructions;
use setting::Setting;

// The instruction at an index; checks 8, 9 and 12 have passed it.
fn fetch(setting: &Setting, index: usize) -> Instruction
    requires { index < count_of setting.now }
    ensures { Fetched setting.now index result }
{
    instructions::instruction(&setting.tables.routine, index).unwrap_or(Instruction::Return)
}

// The instruction that is evaluated next, at an index: one visit less is left to the block.
fn visit(
    setting: &Setting,
    index: usize,
    visits: &mut usize,
    progress: Progress,
) -> Result<Instruction, Refused>
    requires { index ≤ count_of setting.now }
    ensures { Visited setting.now index visits.old visits.new progress result }
{
    let count = setting.tables.routine.header.instructions;
    if index == count {
        return Err(progress.refused(Refusal::PastLast(count)));
    }
    if *visits == 0 {
        return Err(progress.refused(Refusal::LongBlock(index)));
    }
    *visits -= 1;
    Ok(fetch(setting, index))
}

// What comes of an assignment: it has no goals, so that the progress stays.
fn going_on(assigned: Result<Path, Refusal>, progress: Progress) -> Result<Moved, Refused>
    ensures { result ≡ going_on progress assigned }
{
    let after = assigned.map_err(|refusal| progress.refused(refusal))?;
    Ok(Moved::On(after, progress))
}

// What one instruction of a path leads to: a move, or a branch on a comparison of nodes, whose taken edge leads to a target.
#[derive(Clone, Copy)]
pub enum Turn {
    Moves(Moved),
    Branches(Atom, u32),
}

// A move, or its refusal.
fn turned(moved: Result<Moved, Refused>) -> Result<Turn, Refused>
    ensures { result ≡ turned moved }
{
    Ok(Turn::Moves(moved?))
}

// One instruction of a path, but for a branch, which is left to `branch`. What it needs for itself is not to lie on the stack of the walk, which calls
// itself.
#[inline(never)]
fn advance(
    setting: &Setting,
    ws: &mut [u32],
    block: Block,
    instruction: Instruction,
    progress: Progress,
) -> Result<Turn, Refused>
    requires room_for { RoomUp ws.old setting.now block.path }
    requires inside { block.path.counter < count_of setting.now }
    requires formed { Formed (count_of setting.now) instruction }
    requires ahead { Ahead setting.now.tables.annotations.now block.path.counter instruction }
    requires credit_in { NodeIn ws.old block.path block.credit }
    requires reached { Reached setting.now.tables.routine.bytes.now progress }
    ensures { Turns ws.old ws.new setting.now (term_at ws.old block.credit) block.path instruction progress result }
{
    let grounds = setting.tables.grounds();
    let path = block.path;
    let assigned = match instruction {
        Instruction::Set { d, i } => assignments::set(ws, path, d, i),
        Instruction::Add { d, a, b } => assignments::combine(ws, path, Operation::Sum, d, a, b),
        Instruction::AddImmediate { d, a, i } => {
            assignments::combine_immediate(ws, path, Operation::Sum, d, a, i)
        }
        Instruction::Subtract { d, a, b } => {
            assignments::combine(ws, path, Operation::Difference, d, a, b)
        }
        Instruction::Mask { d, a, i } => {
            assignments::combine_immediate(ws, path, Operation::Mask, d, a, i)
        }
        Instruction::Shift { d, a, i } => assignments::shift(ws, path, d, a, i),
        Instruction::Load { d, a, i } => {
            return turned(accesses::load(&grounds, ws, path, d, a, i, progress));
        }
        Instruction::Store { d: _, a, i } => {
            return turned(accesses::store(&grounds, ws, path, a, i, progress));
        }
        Instruction::Jump { i } => {
            return turned(Ok(Moved::On(path.stepped(i as usize), progress)));
        }
        Instruction::JumpLess { a, b, i } => {
            let less = Atom::new(Comparison::Less, path.node(a), path.node(b));
            return Ok(Turn::Branches(less, i));
        }
        Instruction::JumpEqual { a, b, i } => {
            let equal = Atom::new(Comparison::Equal, path.node(a), path.node(b));
            return Ok(Turn::Branches(equal, i));
        }
        Instruction::Return => {
            let conditions = setting.conditions;
            let postcondition = setting.policy.postcondition;
            return turned(jumps::return_from(
                &grounds,
                conditions,
                postcondition,
                ws,
                block,
                progress,
            ));
        }
    };
    turned(going_on(assigned, progress))
}

// A branch on a comparison: the taken edge is followed to the end of all its paths, and then the path goes on with the other one, as it was before the
// branch.
#[cycle(walk)]
fn branch(
    setting: &Setting,
    ws: &mut [u32],
    block: Block,
    condition: Atom,
    target: u32,
    visits: &mut usize,
    progress: Progress,
) -> Result<Moved, Refused>
    requires room_for { RoomUp ws.old setting.now block.path }
    requires inside { (block.path.counter < count_of setting.now) × (target < count_of setting.now) }
    requires toward { Toward setting.now block.path.counter target }
    requires sides_below { AtomBelow block.path.top condition }
    requires credit_in { NodeIn ws.old block.path block.credit }
    requires reached { Reached setting.now.tables.routine.bytes.now progress }
    ensures { BranchSteps ws.old ws.new setting.now (term_at ws.old block.credit) block.path condition target visits.old visits.new progress result }
{
    let path = block.path;
    let there = Block {
        path: jumps::edge(ws, path, target as usize, condition),
        ..block
    };
    let after = follow(setting, ws, there, visits, progress)?;
    let opposite = jumps::opposite(condition);
    let other = jumps::edge(ws, path, path.counter + 1, opposite);
    Ok(Moved::On(other, after))
}

// One instruction of a path.
#[cycle(walk)]
fn step(
    setting: &Setting,
    ws: &mut [u32],
    block: Block,
    instruction: Instruction,
    visits: &mut usize,
    progress: Progress,
) -> Result<Moved, Refused>
    requires room_for { RoomUp ws.old setting.now block.path }
    requires inside { block.path.counter < count_of setting.now }
    requires formed { Formed (count_of setting.now) instruction }
    requires ahead { Ahead setting.now.tables.annotations.now block.path.counter instruction }
    requires credit_in { NodeIn ws.old block.path block.credit }
    requires reached { Reached setting.now.tables.routine.bytes.now progress }
    ensures { Advances ws.old ws.new setting.now (term_at ws.old block.credit) block.path instruction visits.old visits.new progress result }
{
    match advance(setting, ws, block, instruction, progress)? {
        Turn::Moves(moved) => Ok(moved),
        Turn::Branches(condition, target) => {
            branch(setting, ws, block, condition, target, visits, progress)
        }
    }
}

// The walk along a path: its goals and those of all paths that branches make of it, up to the end of each or the first refusal. It calls itself for the
// taken edge of a branch, whose index is nearer to n, so that no more than n calls are under way at a time.
#[cycle(walk)]
pub fn walk(
    setting: &Setting,
    ws: &mut [u32],
    mut block: Block,
    visits: &mut usize,
    mut progress: Progress,
) -> Result<Progress, Refused>
    requires room_for { RoomUp ws.old setting.now block.path }
    requires inside { block.path.counter ≤ count_of setting.now }
    requires credit_in { NodeIn ws.old block.path block.credit }
    requires reached { Reached setting.now.tables.routine.bytes.now progress }
    ensures { Parts ws.old ws.new setting.now (term_at ws.old block.credit) (walked (term_at ws.old block.credit) visits.old (path_of ws.old block.path)) block.path progress visits.new result }
{
    loop {
        let instruction = visit(setting, block.path.counter, visits, progress)?;
        match step(setting, ws, block, instruction, visits, progress)? {
            Moved::Ended(done) => return Ok(done),
            Moved::On(path, next) => {
                block = Block { path, ..block };
                progress = next;
            }
        }
        if let Some(done) = jumps::arrive(&setting.tables, ws, block, progress)? {
            return Ok(done);
        }
    }
}

// A path that has come to an index: it arrives at the annotation there and ends, or it is walked.
#[cycle(walk)]
pub fn follow(
    setting: &Setting,
    ws: &mut [u32],
    block: Block,
    visits: &mut usize,
    progress: Progress,
) -> Result<Progress, Refused>
    requires room_on { RoomOn ws.old setting.now block.path }
    requires credit_in { NodeIn ws.old block.path block.credit }
    requires reached { Reached setting.now.tables.routine.bytes.now progress }
    ensures { Parts ws.old ws.new setting.now (term_at ws.old block.credit) (followed (term_at ws.old block.credit) visits.old (path_of ws.old block.path)) block.path progress visits.new result }
{
    match jumps::arrive(&setting.tables, ws, block, progress)? {
        Some(done) => Ok(done),
        None => walk(setting, ws, block, visits, progress),
    }
}
