// Comparison of linear forms modulo 2^32 (rules 12 and 28): small terms are walked as trees, others by the table.
#![tactic(auto)]

ghost use Rattle.std.specs.Prelude.{◌≡◌};
ghost use Rattle.model.specs.Linear.{only_if, form_difference};
ghost use Rattle.workspace.specs.Layout.{constant_word, hint_base, Same};
ghost use Rattle.nodes.specs.Table.{term_at};
ghost use Rattle.forms.specs.Area.{Comparable};
ghost use Rattle.weights.specs.Weights.{Reckoned};
ghost use Rattle.linear.specs.Comparing.{difference_in};

use std::mem;
use workspace::CONSTANT;

// Terms of at most so many nodes are walked as trees.
const SMALL: u32 = 32;

// What the comparison of two linear forms yields: where all coefficients agree, the first constant less the second, modulo 2^32, and otherwise
// that they do not.
#[derive(Clone, Copy)]
pub enum Compared {
    Apart(u32),
    Unlike,
}

// Two forms with this difference of their constants, by whether all coefficients agree.
#[tactic(auto, unfolding(model::specs::Linear::only_if))]
fn apart_if(agree: bool, difference: u32) -> Compared
    ensures { difference_in result ≡ only_if agree difference }
{
    if agree {
        Compared::Apart(difference)
    } else {
        Compared::Unlike
    }
}

// Adds the linear form of node i's term to the area, which is zero, and subtracts that of node j's. Whether each masked or shifted term has
// the same coefficient in both.
fn reckon(ws: &mut [u32], i: usize, j: usize) -> bool
    requires { Comparable ws.old i j constant_word }
    ensures { Reckoned ws.old ws.new (term_at ws.old i) (term_at ws.old j) result }
{
    let plain = nodes::plain(ws, i) & nodes::plain(ws, j);
    if plain & nodes::at_most(ws, i, SMALL) & nodes::at_most(ws, j, SMALL) {
        forms::accumulate(ws, i, false);
        forms::accumulate(ws, j, true);
        return true;
    }
    let nodes = i.max(j) + 1;
    weights::reckon_by_table(ws, i, j, nodes);
    if plain {
        return true;
    }
    weights::settle(ws, nodes)
}

// Compares the linear forms of the terms of nodes i and j, whose variables are among the first variables. The workspace is as it was, but
// for hints.
pub fn compare(ws: &mut [u32], i: usize, j: usize, variables: usize) -> Compared
    requires { Comparable ws.old i j variables }
    ensures value { difference_in result ≡ form_difference (term_at ws.old i) (term_at ws.old j) }
    ensures same { Same 0 hint_base ws.old ws.new }
{
    if nodes::twins(ws, i, j) {
        return Compared::Apart(0);
    }
    let opaque = reckon(ws, i, j);
    let numbered = forms::empty(ws, variables);
    let constant = mem::take(&mut ws[CONSTANT]);
    apart_if(numbered & opaque, constant)
}
