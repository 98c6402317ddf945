// The rules of arithmetic: what each asks of a claim. New nodes stand from the table's top on, at most four of them.
#![tactic(auto, using(claims::proofs::StepLaws::steps), unfolding(model::specs::Rule::premises, model::specs::Rule::sum_of, crate::specs::Sides::monotone_premises, crate::specs::Sides::apart_premises))]

ghost use Rattle.model.specs.Rule.{congruence, zero_at_most, successor_at_most, below_successor, sum_no_overflow};
ghost use Rattle.workspace.specs.Room.{new_nodes};
ghost use Rattle.nodes.specs.Table.{Formed, Space};
ghost use Rattle.claims.specs.Parts.{claim_of, ClaimBelow};
ghost use Rattle.claims.specs.Plan.{filled, Planned, Anywhere, asks, always};
ghost use Rattle.arithmetic_rules.specs.Forms.{Linear};
ghost use Rattle.arithmetic_rules.specs.Sides.{monotone_premises, apart_premises};

use claims::parts::Congruence;
use claims::{Claim, Plan, parts};
use linear::Compared;
use model::{Comparison, Misfit};
use nodes::{Atom, Operation};

// Rule 11: a+b = c+d, a-b = c-d, or a masked with b = c masked with d, from a = c, b = d; shifts by one count of a and c, from a = c.
pub fn congruent(ws: &[u32], claim: Claim, plan: &mut Plan) -> Result<(), Misfit>
    requires formed { Formed ws.now plan.old.top }
    requires claim_below { ClaimBelow plan.old.top claim }
    ensures { Planned Anywhere (asks congruence (claim_of ws.now claim)) ws.now ws.now plan.old.top (filled result plan.new) }
{
    let (left, right) = parts::sides(claim, Comparison::Equal)?;
    let congruence = parts::same_operation(ws, left, right)?;
    match congruence {
        Congruence::Pairs(a, b, c, d) => {
            plan.ask([
                Atom::new(Comparison::Equal, a, c),
                Atom::new(Comparison::Equal, b, d),
            ]);
            Ok(())
        }
        Congruence::Single(a, c) => {
            plan.ask([Atom::new(Comparison::Equal, a, c)]);
            Ok(())
        }
    }
}

// Rules 12 and 28: a = b, a ≠ b, when the linear forms have a difference, and it is zero, or it is not. Inlined where it is called twice: a claim that
// is passed to a function in memory is kept there for all rules.
#[inline(always)]
pub fn apart(
    ws: &mut [u32],
    variables: usize,
    claim: Claim,
    kind: Comparison,
    plan: &mut Plan,
) -> Result<(), Misfit>
    requires formed { Formed ws.old plan.old.top }
    requires linear { Linear ws.old variables claim }
    requires claim_below { ClaimBelow plan.old.top claim }
    ensures { Planned Anywhere (always (apart_premises kind (claim_of ws.old claim))) ws.old ws.new plan.old.top (filled result plan.new) }
{
    let (a, b) = parts::sides(claim, kind)?;
    match linear::compare(ws, a, b, variables) {
        Compared::Apart(difference) => plan.ask_nothing_if(parts::holds(kind, difference, 0)),
        Compared::Unlike => Err(Misfit),
    }
}

// Rule 13: 0 ≤ a.
pub fn from_zero(ws: &[u32], claim: Claim, plan: &mut Plan) -> Result<(), Misfit>
    requires formed { Formed ws.now plan.old.top }
    requires claim_below { ClaimBelow plan.old.top claim }
    ensures { Planned Anywhere (asks zero_at_most (claim_of ws.now claim)) ws.now ws.now plan.old.top (filled result plan.new) }
{
    let (zero, _) = parts::sides(claim, Comparison::AtMost)?;
    plan.ask_nothing_if(parts::is_constant(ws, zero, 0))
}

// Rule 14: a+b ≤ c+d from a ≤ c, b ≤ d, c ≤ c+d. Rule 15: a-b ≤ c-d from a ≤ c, d ≤ b, b ≤ a. There is no such rule of masks.
pub fn monotone(
    ws: &[u32],
    claim: Claim,
    operation: Operation,
    plan: &mut Plan,
) -> Result<(), Misfit>
    requires formed { Formed ws.now plan.old.top }
    requires claim_below { ClaimBelow plan.old.top claim }
    ensures { Planned Anywhere (always (monotone_premises operation (claim_of ws.now claim))) ws.now ws.now plan.old.top (filled result plan.new) }
{
    let (left, right) = parts::sides(claim, Comparison::AtMost)?;
    let (a, b) = parts::operands(ws, left, operation)?;
    let (c, d) = parts::operands(ws, right, operation)?;
    let first = Atom::new(Comparison::AtMost, a, c);
    match operation {
        Operation::Sum => {
            plan.ask([
                first,
                Atom::new(Comparison::AtMost, b, d),
                Atom::new(Comparison::AtMost, c, right),
            ]);
            Ok(())
        }
        Operation::Difference => {
            plan.ask([
                first,
                Atom::new(Comparison::AtMost, d, b),
                Atom::new(Comparison::AtMost, b, a),
            ]);
            Ok(())
        }
        Operation::Mask => Err(Misfit),
    }
}

// Rule 16: a+1 ≤ b from a < b.
pub fn successor(ws: &[u32], claim: Claim, plan: &mut Plan) -> Result<(), Misfit>
    requires formed { Formed ws.now plan.old.top }
    requires claim_below { ClaimBelow plan.old.top claim }
    ensures { Planned Anywhere (asks successor_at_most (claim_of ws.now claim)) ws.now ws.now plan.old.top (filled result plan.new) }
{
    let (left, b) = parts::sides(claim, Comparison::AtMost)?;
    let (a, unit) = parts::operands(ws, left, Operation::Sum)?;
    if parts::is_constant(ws, unit, 1) {
        plan.ask([Atom::new(Comparison::Less, a, b)]);
        Ok(())
    } else {
        Err(Misfit)
    }
}

// Rule 17: a ≤ b from a < b+1. Two new nodes.
pub fn within_successor(ws: &mut [u32], claim: Claim, plan: &mut Plan) -> Result<(), Misfit>
    requires formed { Formed ws.old plan.old.top }
    requires space { Space ws.old plan.old.top new_nodes }
    requires claim_below { ClaimBelow plan.old.top claim }
    ensures { Planned Anywhere (asks below_successor (claim_of ws.old claim)) ws.old ws.new plan.old.top (filled result plan.new) }
{
    let top = plan.top;
    let (a, b) = parts::sides(claim, Comparison::AtMost)?;
    terms::put_constant(ws, top, 1);
    terms::put_pair(ws, top + 1, Operation::Sum, b, top);
    plan.top = top + 2;
    plan.ask([Atom::new(Comparison::Less, a, top + 1)]);
    Ok(())
}

// Rule 18: a ≤ a+b from a ≤ 4294967295-b. Two new nodes.
pub fn no_overflow(ws: &mut [u32], claim: Claim, plan: &mut Plan) -> Result<(), Misfit>
    requires formed { Formed ws.old plan.old.top }
    requires space { Space ws.old plan.old.top new_nodes }
    requires claim_below { ClaimBelow plan.old.top claim }
    ensures { Planned Anywhere (asks sum_no_overflow (claim_of ws.old claim)) ws.old ws.new plan.old.top (filled result plan.new) }
{
    let top = plan.top;
    let (a, right) = parts::sides(claim, Comparison::AtMost)?;
    let (p, b) = parts::operands(ws, right, Operation::Sum)?;
    if !term_walks::equal(ws, a, p) {
        return Err(Misfit);
    }
    terms::put_constant(ws, top, u32::MAX);
    terms::put_pair(ws, top + 1, Operation::Difference, top, b);
    plan.top = top + 2;
    plan.ask([Atom::new(Comparison::AtMost, a, top + 1)]);
    Ok(())
}
