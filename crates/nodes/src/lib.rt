// The term table in the lent workspace: node i lies in the three words from TABLE + 3 * i: its parts, its value and its marks. Beside each
// node stand the facts that other walks would look for: its tag, its size, whether it has variables, masks or shifts, its value where it has
// none of them, and an earlier node of the same term where one is known.
#![tactic(auto)]

ghost use Rattle.std.specs.Prelude.{◌≡◌, suc, ◌+◌, ◌*◌, ◌/◌, ◌%◌, ◌≤◌, ◌<◌, length, set, eqb, leb};
ghost use Rattle.model.specs.Term.{closed as isClosed, size as size_of};
ghost use Rattle.model.specs.Goals.{most_term_nodes};
ghost use Rattle.nodes.specs.Atoms.{node_atom};
ghost use Rattle.nodes.specs.Table.{low as low_of, high as high_of, flag_value, operation_tag, linear as isLinear, parts_at, value_at, marks_at, valued_at, view_of, term_at, plain as isPlain, size_cap, place, Shaped, Formed};

use limits::MOST_TERM_NODES;
use model::Comparison;
use workspace::TABLE;

// An operation on two terms, with the tag of its nodes.
#[derive(Clone, Copy, PartialEq, Eq)]
pub enum Operation {
    Sum = 2,
    Difference = 3,
    Mask = 4,
}

// What the marks of a node say, each by a bit: its term is closed; the node holds its value; its term is plain, no mask or shift stands in it.
#[derive(Clone, Copy)]
pub enum Flag {
    Closed = 8,
    Valued = 16,
    Plain = 32,
}

// A node of the table: an operation names its parts by node number; a shift has its count first.
#[derive(Clone, Copy)]
pub enum Node {
    Constant(u32),
    Variable(u32),
    Pair(Operation, usize, usize),
    Shift(u32, usize),
}

// A comparison of two nodes, as an atom of their terms. The kind stands between the sides: if they lay side by side they would be copied as one,
// just after each was written by itself, and the processor would wait for both.
#[derive(Clone, Copy)]
pub struct Atom {
    pub left: usize,
    pub kind: Comparison,
    pub right: usize,
}

impl Atom {
    // A comparison of two nodes.
    pub fn new(kind: Comparison, left: usize, right: usize) -> Atom
        ensures { result ≡ node_atom kind left right }
    {
        Atom { kind, left, right }
    }
}

impl Operation {
    // The tag of the operation's nodes.
    pub fn tag(self) -> u32
        ensures { result ≡ operation_tag self }
    {
        self as u32
    }

    // Whether a linear form goes into the operation's parts.
    pub fn is_linear(self) -> bool
        ensures { result ≡ isLinear self }
    {
        self != Operation::Mask
    }
}

// ---- words

// The lower half of a word.
pub fn low(w: u32) -> u32
    ensures { (result ≡ low_of w) × (result < 65536) }
{
    w % 65536
}

// The upper half of a word.
pub fn high(w: u32) -> usize
    ensures { (result ≡ high_of w) × (result < 65536) }
{
    (w / 65536) as usize
}

// The marks of node i.
pub fn marks(ws: &[u32], i: usize) -> u32
    requires { place (suc i) ≤ length ws.now }
    ensures { result ≡ marks_at ws.now i }
{
    ws[TABLE + 3 * i + 2]
}

// The tag of node i.
pub fn tag(ws: &[u32], i: usize) -> u32
    requires { place (suc i) ≤ length ws.now }
    ensures { result ≡ marks_at ws.now i % 8 }
{
    marks(ws, i) % 8
}

// The parts of node i, in one word.
pub fn parts(ws: &[u32], i: usize) -> u32
    requires { place (suc i) ≤ length ws.now }
    ensures { result ≡ parts_at ws.now i }
{
    ws[TABLE + 3 * i]
}

// The first part of node i.
pub fn first(ws: &[u32], i: usize) -> usize
    requires { place (suc i) ≤ length ws.now }
    ensures { result ≡ low_of (parts_at ws.now i) }
{
    low(parts(ws, i)) as usize
}

// The second part of node i, or the count of a shift.
pub fn second(ws: &[u32], i: usize) -> usize
    requires { place (suc i) ≤ length ws.now }
    ensures { (result ≡ high_of (parts_at ws.now i)) × (result < 65536) }
{
    high(parts(ws, i))
}

// The value of node i.
pub fn value(ws: &[u32], i: usize) -> u32
    requires { place (suc i) ≤ length ws.now }
    ensures { result ≡ value_at ws.now i }
{
    ws[TABLE + 3 * i + 1]
}

// Sets the value of node i.
pub fn set_value(ws: &mut [u32], i: usize, value: u32)
    requires { place (suc i) ≤ length ws.old }
    ensures { ws.new ≡ set ws.old (place i + 1) value }
{
    ws[TABLE + 3 * i + 1] = value;
}

// Whether a flag is set in marks.
pub fn flagged(marks: u32, flag: Flag) -> bool
    ensures { result ≡ eqb (marks / flag_value flag % 2) 1 }
{
    let bit = flag as u32;
    marks / bit % 2 == 1
}

// The size in marks: the cap if it is more.
pub fn size(marks: u32) -> u32
    ensures { (result ≡ low_of marks / 64) × (result < 1024) }
{
    low(marks) / 64
}

// Whether node i holds a value: its term is closed and plain.
pub fn holds_value(ws: &[u32], i: usize) -> bool
    requires { place (suc i) ≤ length ws.now }
    ensures { result ≡ valued_at ws.now i }
{
    flagged(marks(ws, i), Flag::Valued)
}

// Node i, in words that need not be a table.
#[tactic(auto, using(crate::proofs::Table::shift_tag), unfolding(crate::specs::Table::view_of))]
pub fn view(ws: &[u32], i: usize) -> Node
    requires { place (suc i) ≤ length ws.now }
    ensures { result ≡ view_of ws.now i }
{
    let parts = parts(ws, i);
    let first = low(parts) as usize;
    let second = high(parts);
    match tag(ws, i) {
        0 => Node::Constant(value(ws, i)),
        1 => Node::Variable(parts),
        2 => Node::Pair(Operation::Sum, first, second),
        3 => Node::Pair(Operation::Difference, first, second),
        4 => Node::Pair(Operation::Mask, first, second),
        _ => Node::Shift(parts / 65536, first),
    }
}

// ---- terms

// Whether the same node stands for the terms of nodes i and j.
pub fn twins(ws: &[u32], i: usize, j: usize) -> bool
    requires first_shaped { Shaped ws.now (suc i) }
    requires second_shaped { Shaped ws.now (suc j) }
    ensures { result ≡ eqb (high_of (marks_at ws.now i)) (high_of (marks_at ws.now j)) }
{
    high(marks(ws, i)) == high(marks(ws, j))
}

// Whether the terms of nodes i and j have the same facts.
pub fn alike(ws: &[u32], i: usize, j: usize) -> bool
    requires first_shaped { Shaped ws.now (suc i) }
    requires second_shaped { Shaped ws.now (suc j) }
    ensures { result ≡ eqb (low_of (marks_at ws.now i)) (low_of (marks_at ws.now j)) }
{
    low(marks(ws, i)) == low(marks(ws, j))
}

// Whether no variable stands in node i's term.
pub fn closed(ws: &[u32], i: usize) -> bool
    requires { Formed ws.now (suc i) }
    ensures { result ≡ isClosed (term_at ws.now i) }
{
    flagged(marks(ws, i), Flag::Closed)
}

// Whether no mask or shift stands in node i's term.
pub fn plain(ws: &[u32], i: usize) -> bool
    requires { Formed ws.now (suc i) }
    ensures { result ≡ isPlain (term_at ws.now i) }
{
    flagged(marks(ws, i), Flag::Plain)
}

// Whether node i's term has at most so many nodes, below the cap.
pub fn at_most(ws: &[u32], i: usize, nodes: u32) -> bool
    requires formed { Formed ws.now (suc i) }
    requires below_cap { nodes < size_cap }
    ensures { result ≡ leb (size_of (term_at ws.now i)) nodes }
{
    size(marks(ws, i)) <= nodes
}

// Whether node i's term is small enough for a register.
pub fn small(ws: &[u32], i: usize) -> bool
    requires { Formed ws.now (suc i) }
    ensures { result ≡ leb (size_of (term_at ws.now i)) most_term_nodes }
{
    at_most(ws, i, MOST_TERM_NODES)
}
