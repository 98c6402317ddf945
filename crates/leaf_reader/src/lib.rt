// The readers of a constant and of a variable, which build in the term table. The variable of a register is the node registers[v].
#![tactic(auto)]

ghost use Rattle.std.specs.Prelude.{◌≡◌, ◌<◌, ◌≤◌, ℕ, length};
ghost use Rattle.model.specs.Expression.{Nodes, node_of, four_byte_constant, two_byte_variable};
ghost use Rattle.model.specs.Term.{Term};
ghost use Rattle.nodes.specs.Table.{Formed, Space};
ghost use Rattle.leaf_reader.specs.Leaves.{Ready, node_in, nodes_over, nodes_answer, Grown};

mod sources;

use limits::REGISTERS;
use model::ReadError;
pub use sources::Source;

// What reading an expression gives: its node, the next position, the nodes left and the table's new top.
#[derive(Clone, Copy)]
pub struct Parsed {
    pub node: usize,
    pub next: usize,
    pub left: usize,
    pub top: usize,
}

// The constant after the tag at `at`, as a new node.
pub fn read_constant(
    bytes: &[u8],
    end: usize,
    ws: &mut [u32],
    at: usize,
    left: usize,
    top: usize,
) -> Result<Parsed, ReadError>
    requires at_in_bounds { (at < end) × (end ≤ length bytes.now) }
    requires node_left { 0 < left }
    requires formed { Formed ws.old top }
    requires space { Space ws.old top left }
    ensures answer { (limit : ℕ) (σ : ℕ → Term) (operand : (left p : ℕ) → Nodes) → nodes_answer ws.new result ≡ nodes_over σ (node_of bytes.now end limit operand four_byte_constant left at) }
    ensures grown { Grown ws.old ws.new end top left result }
{
    if end - at < 5 {
        return Err(ReadError::Missing);
    }
    terms::put_constant(ws, top, fields::word(bytes, at + 1));
    Ok(Parsed {
        node: top,
        next: at + 5,
        left: left - 1,
        top: top + 1,
    })
}

// The variable after the tag at `at`: a register's node, or a new one.
pub fn read_variable(
    source: &Source,
    ws: &mut [u32],
    at: usize,
    left: usize,
    top: usize,
) -> Result<Parsed, ReadError>
    requires at_in_bounds { at < source.now.end }
    requires node_left { 0 < left }
    requires ready { Ready ws.old source.now.registers top left }
    ensures answer { (operand : (left p : ℕ) → Nodes) → nodes_answer ws.new result ≡ node_in ws.old source.now operand two_byte_variable left at }
    ensures grown { Grown ws.old ws.new source.now.end top left result }
{
    if source.end - at < 3 {
        return Err(ReadError::Missing);
    }
    let v = fields::half(source.bytes, at + 1);
    if source.limit <= v {
        return Err(ReadError::Fault(at + 1));
    }
    let next = at + 3;
    let left = left - 1;
    if v < REGISTERS {
        return Ok(Parsed {
            node: source.registers[v] as usize,
            next,
            left,
            top,
        });
    }
    terms::put_variable(ws, top, v as u32);
    Ok(Parsed {
        node: top,
        next,
        left,
        top: top + 1,
    })
}
