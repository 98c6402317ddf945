// The words in which linear forms modulo 2^32 (rules 12 and 28) are reckoned, the workspace's first: word v for variable v, and one word for the
// constant. They are all zero between uses. Small terms are walked as trees.
#![tactic(auto)]

ghost use Rattle.std.specs.Prelude.{◌≡◌, ◌≤◌, ◌<◌, length, get_or, set};
ghost use Rattle.workspace.specs.Layout.{constant_word};
ghost use Rattle.nodes.specs.Table.{term_at};
ghost use Rattle.forms.specs.Area.{signed, Tree, Accumulated, Emptied};

use nodes::{Node, Operation};
use std::mem;
use workspace::CONSTANT;

// Adds x to a word, or subtracts it.
pub fn change(ws: &mut [u32], at: usize, x: u32, negative: bool)
    requires { at < length ws.old }
    ensures { ws.new ≡ set ws.old at (signed negative (get_or ws.old at 0) x) }
{
    if negative {
        ws[at] = fields::sub(ws[at], x);
    } else {
        ws[at] = fields::add(ws[at], x);
    }
}

// Adds the linear form of node i's term, in which no mask or shift stands, to the area, or subtracts it.
pub fn accumulate(ws: &mut [u32], i: usize, negative: bool)
    requires { Tree ws.old i constant_word }
    ensures { Accumulated ws.old ws.new negative (term_at ws.old i) }
{
    match nodes::view(ws, i) {
        Node::Constant(n) => change(ws, CONSTANT, n, negative),
        Node::Variable(v) => change(ws, v as usize, 1, negative),
        Node::Pair(operation, left, right) => {
            accumulate(ws, left, negative);
            match operation {
                Operation::Sum => accumulate(ws, right, negative),
                Operation::Difference => accumulate(ws, right, !negative),
                Operation::Mask => {}
            }
        }
        Node::Shift(_, _) => {}
    }
}

// Whether the coefficients of the first variables are all zero; they are zero afterwards.
pub fn empty(ws: &mut [u32], variables: usize) -> bool
    requires { variables ≤ length ws.old }
    ensures { Emptied ws.old ws.new variables result }
{
    let mut zero = true;
    for coefficient in &mut ws[..variables] {
        zero &= mem::take(coefficient) == 0;
    }
    zero
}
