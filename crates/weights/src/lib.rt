// Linear forms by the table: each node is visited once, from the last on. Where a node holds no value, that word, which is zero between uses,
// holds its weight, the number of times that the form of its term is to be added. A masked or shifted term stands for itself: its weight
// stays, and nodes with the same term are brought together at the end.
#![tactic(auto)]

pub mod guesses;

ghost use Rattle.std.specs.Prelude.{◌≡◌, suc, ◌*◌, ◌%◌, ◌^◌, ◌≤◌, ◌<◌, max, length};
ghost use Rattle.workspace.specs.Layout.{constant_word, hint_base, Same};
ghost use Rattle.nodes.specs.Table.{place, valued_at, term_at, Shaped};
ghost use Rattle.forms.specs.Area.{Comparable};
ghost use Rattle.weights.specs.Weights.{given_to, weighs_at, Weighable, Passed, Partner, Settleable, Settled, Spread};

use guesses::Guesses;
use nodes::{Node, Operation};
use workspace::CONSTANT;

// Adds w times the linear form of node k's term: to the constant where the node holds a value, else to the node's weight.
fn give(ws: &mut [u32], k: usize, w: u32)
    requires { place (suc k) ≤ length ws.old }
    ensures { ws.new ≡ given_to (valued_at ws.old k) ws.old k w }
{
    let value = nodes::value(ws, k);
    if nodes::holds_value(ws, k) {
        forms::change(ws, CONSTANT, w.wrapping_mul(value), false);
    } else {
        nodes::set_value(ws, k, fields::add(value, w));
    }
}

// Gives the weight of node k to its parts; a masked or shifted term keeps it.
fn pass(ws: &mut [u32], k: usize)
    requires { Weighable ws.old (suc k) }
    ensures { Passed ws.old ws.new (suc k) k }
{
    let w = nodes::value(ws, k);
    if w == 0 || nodes::holds_value(ws, k) {
        return;
    }
    match nodes::view(ws, k) {
        Node::Variable(v) => {
            nodes::set_value(ws, k, 0);
            forms::change(ws, v as usize, w, false);
        }
        Node::Pair(operation, left, right) => match operation {
            Operation::Sum => {
                nodes::set_value(ws, k, 0);
                give(ws, left, w);
                give(ws, right, w);
            }
            Operation::Difference => {
                nodes::set_value(ws, k, 0);
                give(ws, left, w);
                give(ws, right, fields::sub(0, w));
            }
            Operation::Mask => {}
        },
        Node::Constant(_) => {}
        Node::Shift(_, _) => {}
    }
}

// Gives the weights of the first nodes to their parts, from the last node on.
fn spread(ws: &mut [u32], nodes: usize)
    requires { Weighable ws.old nodes }
    ensures { Passed ws.old ws.new nodes 0 }
{
    for k in (0..nodes).rev() {
        pass(ws, k);
    }
}

// Adds the linear form of node i's term to the area, which is zero, and subtracts that of node j's, node by node; both are among the first
// nodes.
pub fn reckon_by_table(ws: &mut [u32], i: usize, j: usize, nodes: usize)
    requires comparable { Comparable ws.old i j constant_word }
    requires nodes_value { nodes ≡ suc (max i j) }
    ensures { Spread ws.old ws.new nodes (term_at ws.old i) (term_at ws.old j) }
{
    give(ws, i, 1);
    give(ws, j, u32::MAX);
    spread(ws, nodes);
}

// ---- masked and shifted terms

// Whether node k has a weight.
fn weighs(ws: &[u32], k: usize) -> bool
    requires { place (suc k) ≤ length ws.now }
    ensures { result ≡ weighs_at ws.now k }
{
    (nodes::value(ws, k) != 0) & !nodes::holds_value(ws, k)
}

// The last node before k that has a weight and the term of node k, if there is one. Equal terms need not know of each other by twins.
fn searched(ws: &[u32], k: usize) -> Option<usize>
    requires { Shaped ws.now (suc k) }
    ensures { Partner ws.now ws.now k result }
{
    (0..k).rfind(|&j| weighs(ws, j) && term_walks::equal(ws, j, k))
}

// A node before k that has the term of node k, the guessed one if it has it; none, if none with a weight has it.
fn partner(ws: &[u32], k: usize, guesses: &mut Option<Guesses>) -> Option<usize>
    requires { Shaped ws.now (suc k) }
    ensures { Partner ws.now ws.now k result }
{
    if guesses.is_none() {
        *guesses = Some(Guesses::up_to(ws, k));
    }
    let known = guesses.map_or(k, |made| made.guess(ws, k));
    if known < k && term_walks::equal(ws, known, k) {
        return Some(known);
    }
    searched(ws, k)
}

// Adds the weight of node `last` to that of an earlier node with its term; false, if there is none. Its own weight is zero afterwards.
fn hand_over(ws: &mut [u32], last: usize, guesses: &mut Option<Guesses>) -> bool
    requires { Settleable ws.old (suc last) }
    ensures { Settled ws.old ws.new (suc last) last result }
{
    if !weighs(ws, last) {
        return true;
    }
    let w = nodes::value(ws, last);
    let earlier = partner(ws, last, guesses);
    nodes::set_value(ws, last, 0);
    match earlier {
        Some(j) => {
            nodes::set_value(ws, j, fields::add(nodes::value(ws, j), w));
            true
        }
        None => false,
    }
}

// Whether the weights of the first nodes come to zero for each term, from the last node on; they are all zero afterwards.
#[inline(never)]
fn settle_weights(ws: &mut [u32], nodes: usize) -> bool
    requires { Settleable ws.old nodes }
    ensures { Settled ws.old ws.new nodes 0 result }
{
    let mut guesses = None;
    let mut zero = true;
    for k in (0..nodes).rev() {
        zero &= hand_over(ws, k, &mut guesses);
    }
    zero
}

// Whether the weights that are left come to zero for each term; they are all zero afterwards.
pub fn settle(ws: &mut [u32], nodes: usize) -> bool
    requires { Settleable ws.old nodes }
    ensures { Settled ws.old ws.new nodes 0 result }
{
    for k in (0..nodes).rev() {
        if weighs(ws, k) {
            return settle_weights(ws, k + 1);
        }
    }
    true
}
