// The reader that builds expressions in the term table. The variable of a register is the node registers[v].
#![tactic(auto)]

ghost use Rattle.std.specs.Prelude.{◌≡◌, ℕ, ◌≤◌, ◌<◌, get_or};
ghost use Rattle.std.proofs.Math.ListN.{get_elem?};
ghost use Rattle.std.proofs.Math.Option.{some};
ghost use Rattle.model.specs.Term.{shift};
ghost use Rattle.model.specs.Expression.{forms, two_expressions, count_and_expression, most_nodes};
ghost use Rattle.nodes.specs.Table.{operation_of};
ghost use Rattle.leaf_reader.specs.Leaves.{Ready, Grown, nodes_answer};
ghost use Rattle.term_reader.specs.Reader.{nodes_in, expression_in, expression_answer};

use leaf_reader::{Parsed, Source};
use limits::{MOST_COUNT, MOST_NODES};
use model::ReadError;
use nodes::Operation;

// The sum, the difference or the mask at `at`: two expressions after the tag.
#[cycle(reading)]
fn read_pair(
    source: &Source,
    ws: &mut [u32],
    at: usize,
    left: usize,
    top: usize,
    operation: Operation,
) -> Result<Parsed, ReadError>
    requires ready { Ready ws.old source.now.registers top left }
    requires at_in_bounds { at < source.now.end }
    requires node_left { 0 < left }
    requires pair_stands { get_elem? forms (get_or source.now.bytes.now at 0) ≡ some (two_expressions (operation_of operation)) }
    ensures answer { (depth : ℕ) → left ≤ depth → nodes_answer ws.new result ≡ nodes_in ws.old source.now depth left at }
    ensures grown { Grown ws.old ws.new source.now.end top left result }
{
    let first = read(source, ws, at + 1, left - 1, top)?;
    let second = read(source, ws, first.next, first.left, first.top)?;
    let node = second.top;
    terms::put_pair(ws, node, operation, first.node, second.node);
    Ok(Parsed {
        node,
        next: second.next,
        left: second.left,
        top: node + 1,
    })
}

// The shift at `at`: a count and an expression after the tag.
#[cycle(reading)]
fn read_shift(
    source: &Source,
    ws: &mut [u32],
    at: usize,
    left: usize,
    top: usize,
) -> Result<Parsed, ReadError>
    requires ready { Ready ws.old source.now.registers top left }
    requires at_in_bounds { at < source.now.end }
    requires node_left { 0 < left }
    requires shift_stands { get_elem? forms (get_or source.now.bytes.now at 0) ≡ some (count_and_expression shift) }
    ensures answer { (depth : ℕ) → left ≤ depth → nodes_answer ws.new result ≡ nodes_in ws.old source.now depth left at }
    ensures grown { Grown ws.old ws.new source.now.end top left result }
{
    if source.end - at < 2 {
        return Err(ReadError::Missing);
    }
    let count = u32::from(source.bytes[at + 1]);
    if MOST_COUNT < count {
        return Err(ReadError::Fault(at + 1));
    }
    let operand = read(source, ws, at + 2, left - 1, top)?;
    let node = operand.top;
    terms::put_shift(ws, node, count, operand.node);
    Ok(Parsed {
        node,
        next: operand.next,
        left: operand.left,
        top: node + 1,
    })
}

// The expression at `at`, of at most `left` nodes, its variables below the limit.
#[cycle(reading)]
fn read(
    source: &Source,
    ws: &mut [u32],
    at: usize,
    left: usize,
    top: usize,
) -> Result<Parsed, ReadError>
    requires { Ready ws.old source.now.registers top left }
    ensures answer { (depth : ℕ) → left ≤ depth → nodes_answer ws.new result ≡ nodes_in ws.old source.now depth left at }
    ensures grown { Grown ws.old ws.new source.now.end top left result }
{
    if source.end <= at {
        return Err(ReadError::Missing);
    }
    if left == 0 {
        return Err(ReadError::Fault(at));
    }
    match source.bytes[at] {
        0 => leaf_reader::read_constant(source.bytes, source.end, ws, at, left, top),
        1 => leaf_reader::read_variable(source, ws, at, left, top),
        2 => read_pair(source, ws, at, left, top, Operation::Sum),
        3 => read_pair(source, ws, at, left, top, Operation::Difference),
        4 => read_pair(source, ws, at, left, top, Operation::Mask),
        5 => read_shift(source, ws, at, left, top),
        _ => Err(ReadError::Fault(at)),
    }
}

// The expression at `at`, of at most 31 nodes.
pub fn expression(
    source: &Source,
    ws: &mut [u32],
    at: usize,
    top: usize,
) -> Result<Parsed, ReadError>
    requires { Ready ws.old source.now.registers top most_nodes }
    ensures answer { expression_answer ws.new result ≡ expression_in ws.old source.now at }
    ensures grown { Grown ws.old ws.new source.now.end top most_nodes result }
{
    read(source, ws, at, MOST_NODES, top)
}
