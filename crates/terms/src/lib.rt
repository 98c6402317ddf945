// New nodes of the term table, with the facts beside them. A node with the same words is looked for by a hint; it then stands for the new one.
#![tactic(auto)]

ghost use Rattle.std.specs.Prelude.{◌≡◌, ◌&&◌, suc, ◌+◌, ◌*◌, ◌/◌, ◌%◌, ◌^◌, ◌≤◌, ◌<◌, length, eqb};
ghost use Rattle.model.specs.Term.{constant, variable, shift as shift_of};
ghost use Rattle.model.specs.Expression.{most_count};
ghost use Rattle.model.specs.Verdict.{least_workspace};
ghost use Rattle.workspace.specs.Layout.{most_variables, hint_base, stored, Same};
ghost use Rattle.nodes.specs.Table.{low as low_of, place, parts_at, value_at, marks_at, operation_of, term_at, term_of, pair_value, facts_from, holds_of, value_of, Formed, Space, Put, Fits, Twinned};

use limits::MOST_TERM_NODES;
use nodes::{Flag, Operation};
use workspace::{HINT_COUNT, HINTS, NOTE_COUNT, NOTES, TABLE};

// Sizes are kept up to this, one more than the nodes of a register's term.
const SIZE_CAP: u32 = MOST_TERM_NODES + 1;

// The tags of nodes that are no operation's.
const CONSTANT: u32 = 0;

const VARIABLE: u32 = 1;

const SHIFT: u32 = 5;

// Stores three words at a place.
fn store(ws: &mut [u32], at: usize, a: u32, b: u32, c: u32)
    requires { at + 3 ≤ length ws.old }
    ensures { ws.new ≡ stored ws.old at a b c }
{
    ws[at] = a;
    ws[at + 1] = b;
    ws[at + 2] = c;
}

// A number made of a node's words: any mixture of them will do.
fn mixture(parts: u32, value: u32, facts: u32) -> u64
    ensures { result < 2 ^ 50 }
{
    u64::from(parts) * 40503 + u64::from(value) * 60493 + u64::from(facts) * 9973
}

// Where the hint for a node's words stands.
fn slot(parts: u32, value: u32, facts: u32) -> usize
    ensures { (hint_base ≤ result) × (result < least_workspace) }
{
    let x = mixture(parts, value, facts);
    let mixed = (x / 65536 + x) % (HINT_COUNT as u64);
    HINTS + (mixed as usize)
}

// Whether node n has these parts, this value and these facts.
fn repeats(ws: &[u32], n: usize, parts: u32, value: u32, facts: u32) -> bool
    requires { Formed ws.now (suc n) }
    ensures { result ≡ (eqb (parts_at ws.now n) parts && eqb (value_at ws.now n) value && eqb (low_of (marks_at ws.now n)) facts) }
{
    let at = TABLE + 3 * n;
    (ws[at] == parts) & (ws[at + 1] == value) & (nodes::low(ws[at + 2]) == facts)
}

// The node for these words: the one that the hint names, if it has them, else top, and the hint then names it.
fn find(ws: &mut [u32], top: usize, parts: u32, value: u32, facts: u32) -> usize
    requires formed { Formed ws.old top }
    requires space { Space ws.old top 1 }
    ensures { Twinned ws.old ws.new top parts value facts result }
{
    let at = slot(parts, value, facts);
    let hinted = ws[at] as usize;
    if hinted < top && repeats(ws, hinted, parts, value, facts) {
        return hinted;
    }
    ws[at] = top as u32;
    top
}

// Stores the words of node top, for which a node stands.
fn store_node(ws: &mut [u32], top: usize, parts: u32, value: u32, facts: u32, first: usize)
    requires words { place (suc top) ≤ length ws.old }
    requires halves { (first < 65536) × (facts < 65536) }
    ensures { ws.new ≡ stored ws.old (place top) parts value (facts + 65536 * first) }
{
    store(
        ws,
        TABLE + 3 * top,
        parts,
        value,
        facts + 65536 * (first as u32),
    );
}

// Stores the words of node top.
fn put(ws: &mut [u32], top: usize, parts: u32, value: u32, facts: u32)
    requires formed { Formed ws.old top }
    requires space { Space ws.old top 1 }
    requires fits { Fits ws.old top parts value facts }
    requires half { facts < 65536 }
    ensures { Put ws.old ws.new top (term_of ws.old parts value facts) }
{
    let first = find(ws, top, parts, value, facts);
    store_node(ws, top, parts, value, facts, first);
}

// The facts of a term in one number: its tag, whether it is closed, whether it is plain, and its size.
fn facts(tag: u32, closed: bool, plain: bool, size: u32) -> u32
    requires { tag < 8 }
    ensures value { result ≡ facts_from tag closed plain size }
    ensures half { result < 65536 }
{
    let valued = closed & plain;
    let flags = 8 * u32::from(closed) + 16 * u32::from(valued) + 32 * u32::from(plain);
    tag + flags + 64 * size.min(SIZE_CAP)
}

// Puts a constant at node top.
pub fn put_constant(ws: &mut [u32], top: usize, value: u32)
    requires formed { Formed ws.old top }
    requires space { Space ws.old top 1 }
    ensures { Put ws.old ws.new top (constant value) }
{
    put(ws, top, 0, value, facts(CONSTANT, true, true, 1));
}

// Puts a variable at node top.
pub fn put_variable(ws: &mut [u32], top: usize, number: u32)
    requires formed { Formed ws.old top }
    requires space { Space ws.old top 1 }
    requires known { number < most_variables }
    ensures { Put ws.old ws.new top (variable number) }
{
    put(ws, top, number, 0, facts(VARIABLE, false, true, 1));
}

// The value of an operation on two words.
pub fn applied(operation: Operation, a: u32, b: u32) -> u32
    ensures { result ≡ pair_value operation a b }
{
    match operation {
        Operation::Sum => fields::add(a, b),
        Operation::Difference => fields::sub(a, b),
        Operation::Mask => fields::mask(a, b),
    }
}

// The value of an operation on two nodes, where it holds one; then both nodes do.
fn computed(ws: &[u32], operation: Operation, left: usize, right: usize, valued: bool) -> u32
    requires left_formed { Formed ws.now (suc left) }
    requires right_formed { Formed ws.now (suc right) }
    requires holds { valued ≡ holds_of (operation_of operation (term_at ws.now left) (term_at ws.now right)) }
    ensures { result ≡ value_of (operation_of operation (term_at ws.now left) (term_at ws.now right)) }
{
    if valued {
        return applied(operation, nodes::value(ws, left), nodes::value(ws, right));
    }
    0
}

// Puts an operation on two nodes at node top.
pub fn put_pair(ws: &mut [u32], top: usize, operation: Operation, left: usize, right: usize)
    requires formed { Formed ws.old top }
    requires space { Space ws.old top 1 }
    requires parts_below { (left < top) × (right < top) }
    ensures { Put ws.old ws.new top (operation_of operation (term_at ws.old left) (term_at ws.old right)) }
{
    let a = nodes::marks(ws, left);
    let b = nodes::marks(ws, right);
    let parts = nodes::high(a) + 65536 * nodes::high(b);
    let closed = nodes::flagged(a, Flag::Closed) & nodes::flagged(b, Flag::Closed);
    let plain = operation.is_linear()
        & nodes::flagged(a, Flag::Plain)
        & nodes::flagged(b, Flag::Plain);
    let size = nodes::size(a) + nodes::size(b) + 1;
    let value = computed(ws, operation, left, right, closed & plain);
    put(
        ws,
        top,
        parts as u32,
        value,
        facts(operation.tag(), closed, plain, size),
    );
}

// Puts a node shifted right at node top.
pub fn put_shift(ws: &mut [u32], top: usize, count: u32, part: usize)
    requires formed { Formed ws.old top }
    requires space { Space ws.old top 1 }
    requires few { count ≤ most_count }
    requires part_below { part < top }
    ensures { Put ws.old ws.new top (shift_of count (term_at ws.old part)) }
{
    let a = nodes::marks(ws, part);
    let parts = nodes::high(a) + 65536 * (count as usize);
    let facts = facts(
        SHIFT,
        nodes::flagged(a, Flag::Closed),
        false,
        nodes::size(a) + 1,
    );
    put(ws, top, parts as u32, 0, facts);
}

// ---- terms of registers
// A hint is lost when another node takes its place. The nodes of registers' terms have notes besides, which are not lost while the node is in the
// table: a node's words lead to a row of notes, one after the other, and the node is named by the first that was free. A note is free if it
// names none, a node that is no longer there, or one whose words do not lead to it.

// A row of notes has so many.
const ROW: usize = 32;

// The number after x in the row of numbers that lead to a row of notes.
fn turned(x: u64) -> u64 {
    x % 4294967296 * 4294957665 + x / 4294967296
}

// The note that a number leads to.
fn led(x: u64) -> usize
    ensures { result < 3936 }
{
    (x % (NOTE_COUNT as u64)) as usize
}

// What a note says: the node that it names and one, or 0.
fn noted(ws: &[u32], note: usize) -> usize
    requires words { least_workspace ≤ length ws.now }
    requires known { note < 3936 }
    ensures { result < 65536 }
{
    let two = ws[NOTES + note / 2];
    if note % 2 == 0 {
        nodes::low(two) as usize
    } else {
        nodes::high(two)
    }
}

// Has a note say this.
fn write_note(ws: &mut [u32], note: usize, says: usize)
    requires words { least_workspace ≤ length ws.old }
    requires known { note < 3936 }
    requires half { says < 65536 }
    ensures { Same 0 hint_base ws.old ws.new }
{
    let at = NOTES + note / 2;
    let two = ws[at];
    if note % 2 == 0 {
        ws[at] = two / 65536 * 65536 + (says as u32);
    } else {
        ws[at] = two % 65536 + 65536 * (says as u32);
    }
}

// Whether node n's words lead to a note.
fn leads(ws: &[u32], n: usize, note: usize) -> bool
    requires { Formed ws.now (suc n) }
{
    let facts = nodes::low(nodes::marks(ws, n));
    let mut x = mixture(nodes::parts(ws, n), nodes::value(ws, n), facts);
    for _ in 0..ROW {
        x = turned(x);
        if led(x) == note {
            return true;
        }
    }
    false
}

// The first note of a row that is free or names a node with these words, and that node, or else top.
#[derive(Clone, Copy)]
pub struct Sought {
    pub note: usize,
    pub node: usize,
}

// The note for a node's words.
pub fn seek(ws: &[u32], top: usize, parts: u32, value: u32, facts: u32) -> Sought
    requires formed { Formed ws.now top }
    requires words { least_workspace ≤ length ws.now }
    ensures known { result.note < 3936 }
    ensures twinned { Twinned ws.now ws.now top parts value facts result.node }
{
    let mut x = mixture(parts, value, facts);
    let mut note = 0;
    for _ in 0..ROW {
        x = turned(x);
        note = led(x);
        let says = noted(ws, note);
        if says == 0 || says > top {
            return Sought { note, node: top };
        }
        if repeats(ws, says - 1, parts, value, facts) {
            return Sought {
                note,
                node: says - 1,
            };
        }
        if !leads(ws, says - 1, note) {
            return Sought { note, node: top };
        }
    }
    Sought { note, node: top }
}

// The node for these words: the one that a note names, if there is one, else top, and a note then names it.
fn recall(ws: &mut [u32], top: usize, parts: u32, value: u32, facts: u32) -> usize
    requires formed { Formed ws.old top }
    requires space { Space ws.old top 1 }
    ensures { Twinned ws.old ws.new top parts value facts result }
{
    let sought = seek(ws, top, parts, value, facts);
    if sought.node == top {
        write_note(ws, sought.note, top + 1);
    }
    ws[slot(parts, value, facts)] = sought.node as u32;
    sought.node
}

// The node that was put last, top, is one of a register's term: a node that a note names stands for it, or else a note names it.
fn keep(ws: &mut [u32], top: usize)
    requires { Formed ws.old (suc top) }
    ensures { Put ws.old ws.new top (term_at ws.old top) }
{
    let parts = nodes::parts(ws, top);
    let value = nodes::value(ws, top);
    let facts = nodes::low(nodes::marks(ws, top));
    let first = recall(ws, top, parts, value, facts);
    store_node(ws, top, parts, value, facts, first);
}

// Puts a constant of a register's term at node top.
pub fn keep_constant(ws: &mut [u32], top: usize, value: u32)
    requires formed { Formed ws.old top }
    requires space { Space ws.old top 1 }
    ensures { Put ws.old ws.new top (constant value) }
{
    put_constant(ws, top, value);
    keep(ws, top);
}

// Puts an operation on two nodes, of a register's term, at node top.
pub fn keep_pair(ws: &mut [u32], top: usize, operation: Operation, left: usize, right: usize)
    requires formed { Formed ws.old top }
    requires space { Space ws.old top 1 }
    requires parts_below { (left < top) × (right < top) }
    ensures { Put ws.old ws.new top (operation_of operation (term_at ws.old left) (term_at ws.old right)) }
{
    put_pair(ws, top, operation, left, right);
    keep(ws, top);
}

// Puts a node shifted right, of a register's term, at node top.
pub fn keep_shift(ws: &mut [u32], top: usize, count: u32, part: usize)
    requires formed { Formed ws.old top }
    requires space { Space ws.old top 1 }
    requires few { count ≤ most_count }
    requires part_below { part < top }
    ensures { Put ws.old ws.new top (shift_of count (term_at ws.old part)) }
{
    put_shift(ws, top, count, part);
    keep(ws, top);
}

// A node before `end` that a note names and that has these parts and facts, and this value, if it holds one; else `end`. Where forms are
// compared, weights stand in place of other values.
pub fn named(ws: &[u32], end: usize, parts: u32, value: u32, facts: u32) -> usize
    requires words { least_workspace ≤ length ws.now }
    requires fits { place end ≤ length ws.now }
{
    let mut x = mixture(parts, value, facts);
    for _ in 0..ROW {
        x = turned(x);
        let says = noted(ws, led(x));
        if says == 0 || says > end {
            return end;
        }
        let n = says - 1;
        let same = (nodes::parts(ws, n) == parts) & (nodes::low(nodes::marks(ws, n)) == facts);
        if same & (!nodes::holds_value(ws, n) | (nodes::value(ws, n) == value)) {
            return n;
        }
    }
    end
}
