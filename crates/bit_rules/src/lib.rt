// The rules of masks and shifts: what each asks of a claim. None has a premise, and none makes a new node.
#![tactic(auto, using(claims::proofs::StepLaws::steps), unfolding(model::specs::Rule::premises, model::specs::Rule::mask_of))]

ghost use Rattle.model.specs.Rule.{mask_at_most, shift_at_most, shift_bounded};
ghost use Rattle.nodes.specs.Table.{Formed};
ghost use Rattle.claims.specs.Parts.{claim_of, ClaimBelow};
ghost use Rattle.claims.specs.Plan.{filled, Planned, Anywhere, asks};

use claims::{Claim, Plan, parts};
use model::{Comparison, Misfit};
use nodes::Operation;

// Rule 25: a masked with b ≤ b.
pub fn mask_at_most(ws: &[u32], claim: Claim, plan: &mut Plan) -> Result<(), Misfit>
    requires formed { Formed ws.now plan.old.top }
    requires claim_below { ClaimBelow plan.old.top claim }
    ensures { Planned Anywhere (asks mask_at_most (claim_of ws.now claim)) ws.now ws.now plan.old.top (filled result plan.new) }
{
    let (left, right) = parts::sides(claim, Comparison::AtMost)?;
    let (_, b) = parts::operands(ws, left, Operation::Mask)?;
    plan.ask_nothing_if(term_walks::equal(ws, b, right))
}

// Rule 26: a shifted ≤ a.
pub fn shift_at_most(ws: &[u32], claim: Claim, plan: &mut Plan) -> Result<(), Misfit>
    requires formed { Formed ws.now plan.old.top }
    requires claim_below { ClaimBelow plan.old.top claim }
    ensures { Planned Anywhere (asks shift_at_most (claim_of ws.now claim)) ws.now ws.now plan.old.top (filled result plan.new) }
{
    let (left, right) = parts::sides(claim, Comparison::AtMost)?;
    let (_, a) = parts::shifted(ws, left)?;
    plan.ask_nothing_if(term_walks::equal(ws, a, right))
}

// Rule 27: a shifted by s ≤ c, one constant: 4294967295 shifted right by s.
pub fn shift_bounded(ws: &[u32], claim: Claim, plan: &mut Plan) -> Result<(), Misfit>
    requires formed { Formed ws.now plan.old.top }
    requires claim_below { ClaimBelow plan.old.top claim }
    ensures { Planned Anywhere (asks shift_bounded (claim_of ws.now claim)) ws.now ws.now plan.old.top (filled result plan.new) }
{
    let (left, right) = parts::sides(claim, Comparison::AtMost)?;
    let (count, _) = parts::shifted(ws, left)?;
    let bound = fields::shift(u32::MAX, count);
    plan.ask_nothing_if(parts::is_constant(ws, right, bound))
}
