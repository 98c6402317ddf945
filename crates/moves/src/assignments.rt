// Assignments to a register: the new term's nodes stand above the path's top.
ghost use Rattle.std.specs.Prelude.{◌≡◌, suc, ◌+◌, ◌≤◌, ◌<◌, leb};
ghost use Rattle.model.specs.Term.{constant, shift as shift_of, size};
ghost use Rattle.model.specs.Goals.{term_of, most_term_nodes};
ghost use Rattle.model.specs.Expression.{register_count, most_count};
ghost use Rattle.model.specs.Package.{most_instructions};
ghost use Rattle.nodes.specs.Table.{operation_of, term_at, Formed};
ghost use Rattle.paths.specs.Walking.{path_of};
ghost use Rattle.moves.specs.Moves.{RoomFor, Built, assigned_as, Assigns};

use model::Refusal;
use nodes::Operation;
use paths::Path;

// Register d takes the term of a node, if that is small enough, and the path goes on; else it is refused at its counter.
fn assign(ws: &[u32], path: Path, d: u8, node: usize) -> Result<Path, Refusal>
    requires register { d < register_count }
    requires may_step { (path.steps < most_instructions) × (path.counter < most_instructions) }
    requires formed { (node < 65536) × Formed ws.now (suc node) }
    ensures { result ≡ assigned_as (leb (size (term_at ws.now node)) most_term_nodes) path d node }
{
    if !nodes::small(ws, node) {
        return Err(Refusal::LargeTerm(path.counter));
    }
    Ok(path.written(d, node).stepped(path.counter + 1))
}

// d := i
pub fn set(ws: &mut [u32], path: Path, d: u8, i: u32) -> Result<Path, Refusal>
    requires register { d < register_count }
    requires room_for { RoomFor ws.old path 1 }
    ensures { Assigns ws.old ws.new path d (constant i) result }
{
    let top = path.top;
    terms::keep_constant(ws, top, i);
    assign(ws, path.raised(top + 1), d, top)
}

// d := a + b, or d := a - b
pub fn combine(
    ws: &mut [u32],
    path: Path,
    operation: Operation,
    d: u8,
    a: u8,
    b: u8,
) -> Result<Path, Refusal>
    requires registers { (d < register_count) × (a < register_count) × (b < register_count) }
    requires room_for { RoomFor ws.old path 1 }
    ensures { Assigns ws.old ws.new path d (operation_of operation (term_of (path_of ws.old path) a) (term_of (path_of ws.old path) b)) result }
{
    let top = path.top;
    terms::keep_pair(ws, top, operation, path.node(a), path.node(b));
    assign(ws, path.raised(top + 1), d, top)
}

// Puts a constant i and the operation on register a's term and it above the path's top.
pub fn put_with(ws: &mut [u32], path: Path, operation: Operation, a: u8, i: u32)
    requires register { a < register_count }
    requires room_for { RoomFor ws.old path 1 }
    ensures { Built ws.old ws.new path 2 (path.top + 1) (operation_of operation (term_of (path_of ws.old path) a) (constant i)) }
{
    let top = path.top;
    terms::put_constant(ws, top, i);
    terms::put_pair(ws, top + 1, operation, path.node(a), top);
}

// The same for a register's term.
fn keep_with(ws: &mut [u32], path: Path, operation: Operation, a: u8, i: u32)
    requires register { a < register_count }
    requires room_for { RoomFor ws.old path 1 }
    ensures { Built ws.old ws.new path 2 (path.top + 1) (operation_of operation (term_of (path_of ws.old path) a) (constant i)) }
{
    let top = path.top;
    terms::keep_constant(ws, top, i);
    terms::keep_pair(ws, top + 1, operation, path.node(a), top);
}

// d := a + i, or d := a masked with i
pub fn combine_immediate(
    ws: &mut [u32],
    path: Path,
    operation: Operation,
    d: u8,
    a: u8,
    i: u32,
) -> Result<Path, Refusal>
    requires registers { (d < register_count) × (a < register_count) }
    requires room_for { RoomFor ws.old path 1 }
    ensures { Assigns ws.old ws.new path d (operation_of operation (term_of (path_of ws.old path) a) (constant i)) result }
{
    let top = path.top;
    keep_with(ws, path, operation, a, i);
    assign(ws, path.raised(top + 2), d, top + 1)
}

// d := a shifted right by i
pub fn shift(ws: &mut [u32], path: Path, d: u8, a: u8, i: u32) -> Result<Path, Refusal>
    requires registers { (d < register_count) × (a < register_count) }
    requires count { i ≤ most_count }
    requires room_for { RoomFor ws.old path 1 }
    ensures { Assigns ws.old ws.new path d (shift_of i (term_of (path_of ws.old path) a)) result }
{
    let top = path.top;
    terms::keep_shift(ws, top, i, path.node(a));
    assign(ws, path.raised(top + 1), d, top)
}
