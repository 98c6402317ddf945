// Walks along a term in the table: whether two nodes have the same term, and the value of a term without variables.
#![tactic(auto)]

ghost use Rattle.std.specs.Prelude.{◌≡◌, suc, IfSome};
ghost use Rattle.model.specs.Term.{eval, eq_term};
ghost use Rattle.nodes.specs.Table.{term_at, Shaped, Formed};
ghost use Rattle.term_walks.specs.Closed.{values_of, closed_values};
ghost use Rattle.term_walks.specs.Reckoned.{Right};

use nodes::Node;

// The values of two terms.
#[derive(Clone, Copy)]
pub struct Values {
    pub left: u32,
    pub right: u32,
}

// Whether nodes i and j have the same term, node by node: at once where the same node stands for both, or where their facts differ; so that
// their tags are the same afterwards. What stands in place of values, but for constants, is not looked at.
pub fn equal(ws: &[u32], i: usize, j: usize) -> bool
    requires first_shaped { Shaped ws.now (suc i) }
    requires second_shaped { Shaped ws.now (suc j) }
    ensures { result ≡ eq_term (term_at ws.now i) (term_at ws.now j) }
{
    if nodes::twins(ws, i, j) {
        return true;
    }
    if !nodes::alike(ws, i, j) {
        return false;
    }
    match nodes::view(ws, i) {
        Node::Constant(value) => value == nodes::value(ws, j),
        Node::Variable(number) => number == nodes::parts(ws, j),
        Node::Pair(_, left, right) => {
            equal(ws, left, nodes::first(ws, j)) && equal(ws, right, nodes::second(ws, j))
        }
        Node::Shift(count, part) => {
            count as usize == nodes::second(ws, j) && equal(ws, part, nodes::first(ws, j))
        }
    }
}

// The value of node i's term, if it stands in the table.
fn held(ws: &[u32], i: usize) -> Option<u32>
    requires { Formed ws.now (suc i) }
    ensures { IfSome result (λ x. x ≡ eval (λ v. 0) (term_at ws.now i)) }
{
    if nodes::holds_value(ws, i) {
        Some(nodes::value(ws, i))
    } else {
        None
    }
}

// The value of node i's term, every variable being 0, by those of its parts.
#[cycle(reduced)]
fn combined(ws: &[u32], i: usize, kept: &mut [Option<u32>]) -> u32
    requires formed { Formed ws.now (suc i) }
    requires kept { Right ws.now kept.old }
    ensures is { result ≡ eval (λ v. 0) (term_at ws.now i) }
    ensures kept { Right ws.now kept.new }
{
    match nodes::view(ws, i) {
        Node::Constant(value) => value,
        Node::Variable(_) => 0,
        Node::Pair(operation, left, right) => {
            let first = reduced(ws, left, kept);
            terms::applied(operation, first, reduced(ws, right, kept))
        }
        Node::Shift(count, part) => fields::shift(reduced(ws, part, kept), count),
    }
}

// The same, at once where it stands in the table or is kept. Values are kept of the first nodes, as many as there are places.
#[cycle(reduced)]
fn reduced(ws: &[u32], i: usize, kept: &mut [Option<u32>]) -> u32
    requires formed { Formed ws.now (suc i) }
    requires kept { Right ws.now kept.old }
    ensures is { result ≡ eval (λ v. 0) (term_at ws.now i) }
    ensures kept { Right ws.now kept.new }
{
    if let Some(value) = held(ws, i) {
        return value;
    }
    if let Some(&Some(value)) = kept.get(i) {
        return value;
    }
    let value = combined(ws, i, kept);
    if i < kept.len() {
        kept[i] = Some(value);
    }
    value
}

// A place for each node of the table.
const PLACES: usize = 4096;

// The values of two terms, where at least one is large, every variable being 0: no node is walked twice. The places are not to lie on the stack
// of a caller that calls itself.
#[inline(never)]
fn large(ws: &[u32], i: usize, j: usize) -> Values
    requires first_formed { Formed ws.now (suc i) }
    requires second_formed { Formed ws.now (suc j) }
    ensures { result ≡ values_of (term_at ws.now i) (term_at ws.now j) }
{
    let kept = &mut [None; PLACES];
    let left = reduced(ws, i, kept);
    let right = reduced(ws, j, kept);
    Values { left, right }
}

// The value of node i's term, every variable being 0, walked as a tree; none, if it has more nodes without a value than are left.
fn walked(ws: &[u32], i: usize, left: &mut usize) -> Option<u32>
    requires { Formed ws.now (suc i) }
    ensures { IfSome result (λ x. x ≡ eval (λ v. 0) (term_at ws.now i)) }
{
    if let Some(value) = held(ws, i) {
        return Some(value);
    }
    if *left == 0 {
        return None;
    }
    *left -= 1;
    match nodes::view(ws, i) {
        Node::Constant(value) => Some(value),
        Node::Variable(_) => Some(0),
        Node::Pair(operation, first, second) => {
            let a = walked(ws, first, left)?;
            let b = walked(ws, second, left)?;
            Some(terms::applied(operation, a, b))
        }
        Node::Shift(count, part) => {
            let a = walked(ws, part, left)?;
            Some(fields::shift(a, count))
        }
    }
}

// Whether node i holds its term's value, or the term is small.
fn easy(ws: &[u32], i: usize) -> bool
    requires { Formed ws.now (suc i) }
{
    nodes::holds_value(ws, i) | nodes::small(ws, i)
}

// The most nodes without a value in two small terms.
const SMALL: usize = 510;

// So many nodes of other terms are walked first: that takes less than to make places for all nodes.
const FEW: usize = 16;

// The values of two nodes' terms, every variable being 0: walked as trees, if that takes few nodes.
#[inline(never)]
fn both(ws: &[u32], i: usize, j: usize) -> Values
    requires first_formed { Formed ws.now (suc i) }
    requires second_formed { Formed ws.now (suc j) }
    ensures { result ≡ values_of (term_at ws.now i) (term_at ws.now j) }
{
    let easy = easy(ws, i) & easy(ws, j);
    let mut few = if easy { SMALL } else { FEW };
    if let Some(left) = walked(ws, i, &mut few)
        && let Some(right) = walked(ws, j, &mut few)
    {
        return Values { left, right };
    }
    large(ws, i, j)
}

// The values of two nodes' terms, where neither has a variable.
pub fn evaluate(ws: &[u32], i: usize, j: usize) -> Option<Values>
    requires first_formed { Formed ws.now (suc i) }
    requires second_formed { Formed ws.now (suc j) }
    ensures { result ≡ closed_values (term_at ws.now i) (term_at ws.now j) }
{
    if !(nodes::closed(ws, i) & nodes::closed(ws, j)) {
        return None;
    }
    let Some(left) = held(ws, i) else {
        return Some(both(ws, i, j));
    };
    let Some(right) = held(ws, j) else {
        return Some(both(ws, i, j));
    };
    Some(Values { left, right })
}
