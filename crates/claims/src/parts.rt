// Claims and terms taken apart.
ghost use Rattle.std.specs.Prelude.{◌≡◌, List, ℕ, suc, ◌<◌, ◌≤◌, length, IfOk};
ghost use Rattle.model.specs.Term.{constant, eq_term};
ghost use Rattle.model.specs.Rule.{atom_of, sides_of, shift_of, congruent};
ghost use Rattle.model.specs.Atom.{compares, eq_atom};
ghost use Rattle.model.specs.Verdict.{least_workspace};
ghost use Rattle.workspace.specs.Layout.{most_assumptions};
ghost use Rattle.nodes.specs.Table.{term_at, Formed};
ghost use Rattle.nodes.specs.Atoms.{atom_in, AtomBelow};
ghost use Rattle.assumptions.specs.Area.{entry_of};
ghost use Rattle.claims.specs.Parts.{claim_of, ClaimBelow, access_of, operands_for, comparison_in, pair_in, valued_in, congruence_in, CongruenceBelow};

use crate::Claim;
use model::{Comparison, Misfit, Right};
use nodes::{Atom, Node, Operation};

// What makes two terms of one operation equal: a = c and b = d, for nodes a, b, c, d, or a = c alone, for a and c.
#[derive(Clone, Copy)]
pub enum Congruence {
    Pairs(usize, usize, usize, usize),
    Single(usize, usize),
}

// Whether the comparison holds between two words.
#[tactic(auto, unfolding(model::specs::Atom::compares))]
pub fn holds(kind: Comparison, a: u32, b: u32) -> bool
    ensures { result ≡ compares kind a b }
{
    match kind {
        Comparison::Equal => a == b,
        Comparison::Unequal => a != b,
        Comparison::Less => a < b,
        Comparison::AtMost => a <= b,
    }
}

// The comparison that a claim is.
#[tactic(auto, unfolding(model::specs::Rule::atom_of))]
pub fn comparison(claim: Claim) -> Result<Atom, Misfit>
    ensures is { (ws : List ℕ) → comparison_in ws result ≡ atom_of (claim_of ws claim) }
    ensures below { IfOk result (λ a. (top : ℕ) → ClaimBelow top claim → AtomBelow top a) }
{
    match claim {
        Claim::Atom(atom) => Ok(atom),
        _ => Err(Misfit),
    }
}

// The two sides of a claim of a kind.
pub fn sides(claim: Claim, kind: Comparison) -> Result<(usize, usize), Misfit>
    ensures is { (ws : List ℕ) → pair_in ws result ≡ sides_of kind (claim_of ws claim) }
    ensures below { IfOk result (λ p. (top : ℕ) → ClaimBelow top claim → (p.0 < top) × (p.1 < top)) }
{
    let own = comparison(claim)?;
    if own.kind == kind {
        Ok((own.left, own.right))
    } else {
        Err(Misfit)
    }
}

// The right that a claim asks for, and the node.
pub fn accessed(claim: Claim) -> Result<(Right, usize), Misfit>
    ensures is { (ws : List ℕ) → valued_in ws result ≡ access_of (claim_of ws claim) }
    ensures below { IfOk result (λ p. (top : ℕ) → ClaimBelow top claim → p.1 < top) }
{
    match claim {
        Claim::Atom(..) => Err(Misfit),
        Claim::Readable(t) => Ok((Right::Read, t)),
        Claim::Writable(t) => Ok((Right::Write, t)),
    }
}

// The two operands of node i, where it is of the operation.
pub fn operands(ws: &[u32], i: usize, operation: Operation) -> Result<(usize, usize), Misfit>
    requires { Formed ws.now (suc i) }
    ensures is { pair_in ws.now result ≡ operands_for operation (term_at ws.now i) }
    ensures below { IfOk result (λ p. (p.0 < i) × (p.1 < i)) }
{
    let Node::Pair(own, left, right) = nodes::view(ws, i) else {
        return Err(Misfit);
    };
    if own == operation {
        Ok((left, right))
    } else {
        Err(Misfit)
    }
}

// The count and the operand of node i, where it is a shift.
pub fn shifted(ws: &[u32], i: usize) -> Result<(u32, usize), Misfit>
    requires { Formed ws.now (suc i) }
    ensures is { valued_in ws.now result ≡ shift_of (term_at ws.now i) }
    ensures below { IfOk result (λ p. p.1 < i) }
{
    match nodes::view(ws, i) {
        Node::Shift(count, part) => Ok((count, part)),
        _ => Err(Misfit),
    }
}

// What makes nodes i and j equal, where both are sums, differences or masks, or shifts by one count.
pub fn same_operation(ws: &[u32], i: usize, j: usize) -> Result<Congruence, Misfit>
    requires left_formed { Formed ws.now (suc i) }
    requires right_formed { Formed ws.now (suc j) }
    ensures is { congruence_in ws.now result ≡ congruent (term_at ws.now i) (term_at ws.now j) }
    ensures below { IfOk result (CongruenceBelow i j) }
{
    match nodes::view(ws, i) {
        Node::Pair(operation, a, b) => {
            let (c, d) = operands(ws, j, operation)?;
            Ok(Congruence::Pairs(a, b, c, d))
        }
        Node::Shift(count, a) => {
            let (other, c) = shifted(ws, j)?;
            if count == other {
                Ok(Congruence::Single(a, c))
            } else {
                Err(Misfit)
            }
        }
        _ => Err(Misfit),
    }
}

// Whether node i is a given constant.
pub fn is_constant(ws: &[u32], i: usize, value: u32) -> bool
    requires { Formed ws.now (suc i) }
    ensures { result ≡ eq_term (term_at ws.now i) (constant value) }
{
    match nodes::view(ws, i) {
        Node::Constant(known) => known == value,
        _ => false,
    }
}

// Whether a comparison of two nodes is assumption k, node by node.
pub fn is_assumption(ws: &[u32], k: usize, claimed: Atom) -> bool
    requires present { (k < most_assumptions) × (least_workspace ≤ length ws.now) }
    requires left_formed { Formed ws.now (suc claimed.left) }
    requires right_formed { Formed ws.now (suc claimed.right) }
    requires known_left_formed { Formed ws.now (suc (entry_of ws.now k).left) }
    requires known_right_formed { Formed ws.now (suc (entry_of ws.now k).right) }
    ensures { result ≡ eq_atom (atom_in ws.now claimed) (atom_in ws.now (entry_of ws.now k)) }
{
    let known = assumptions::get(ws, k);
    claimed.kind == known.kind
        && term_walks::equal(ws, claimed.left, known.left)
        && term_walks::equal(ws, claimed.right, known.right)
}
