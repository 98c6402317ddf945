// The rules of logic: what each asks of a claim. None makes a new node.
#![tactic(auto, using(claims::proofs::StepLaws::steps), unfolding(model::specs::Rule::premises, crate::specs::Sides::reflexive_premises, crate::specs::Sides::exchanged_premises, crate::specs::Sides::through_premises, crate::specs::Sides::weakened_premises))]

ghost use Rattle.std.specs.Prelude.{List, ℕ, ◌<◌, ◌≤◌, length};
ghost use Rattle.model.specs.Result.{Ok};
ghost use Rattle.model.specs.Goals.{Claim as Claimed};
ghost use Rattle.model.specs.Rule.{from_assumption, evaluation, less_of_at_most, contradiction};
ghost use Rattle.model.specs.Verdict.{least_workspace};
ghost use Rattle.nodes.specs.Table.{term_at, Formed};
ghost use Rattle.assumptions.specs.Area.{listed, Listed};
ghost use Rattle.claims.specs.Parts.{claim_of, ClaimBelow};
ghost use Rattle.claims.specs.Plan.{filled, Planned, Anywhere, Assuming, asks, always};
ghost use Rattle.logic_rules.specs.Sides.{reflexive_premises, exchanged_premises, through_premises, weakened_premises};

use claims::{Claim, Plan, parts};
use model::{Comparison, Misfit};
use nodes::Atom;

// Rule 0: an assumption, by its index.
pub fn assumed(
    ws: &[u32],
    count: usize,
    claim: Claim,
    index: usize,
    plan: &mut Plan,
) -> Result<(), Misfit>
    requires formed { Formed ws.now plan.old.top }
    requires listed { (least_workspace ≤ length ws.now) × Listed ws.now count plan.old.top }
    requires claim_below { ClaimBelow plan.old.top claim }
    ensures { Planned (Assuming (listed ws.now count)) (asks (from_assumption index) (claim_of ws.now claim)) ws.now ws.now plan.old.top (filled result plan.new) }
{
    let claimed = parts::comparison(claim)?;
    if count <= index {
        return Err(Misfit);
    }
    plan.ask_nothing_if(parts::is_assumption(ws, index, claimed))
}

// Rules 1 and 2: a = a, a ≤ a.
pub fn reflexive(ws: &[u32], claim: Claim, kind: Comparison, plan: &mut Plan) -> Result<(), Misfit>
    requires formed { Formed ws.now plan.old.top }
    requires claim_below { ClaimBelow plan.old.top claim }
    ensures { Planned Anywhere (always (reflexive_premises kind (claim_of ws.now claim))) ws.now ws.now plan.old.top (filled result plan.new) }
{
    let (a, b) = parts::sides(claim, kind)?;
    plan.ask_nothing_if(term_walks::equal(ws, a, b))
}

// Rule 3: any atom without variables, true by evaluation.
pub fn evaluated(ws: &[u32], claim: Claim, plan: &mut Plan) -> Result<(), Misfit>
    requires formed { Formed ws.now plan.old.top }
    requires claim_below { ClaimBelow plan.old.top claim }
    ensures { Planned Anywhere (asks evaluation (claim_of ws.now claim)) ws.now ws.now plan.old.top (filled result plan.new) }
{
    let claimed = parts::comparison(claim)?;
    let values = term_walks::evaluate(ws, claimed.left, claimed.right).ok_or(Misfit)?;
    plan.ask_nothing_if(parts::holds(claimed.kind, values.left, values.right))
}

// Rules 4 and 21: a ~ b from b ~ a.
pub fn exchanged(claim: Claim, kind: Comparison, plan: &mut Plan) -> Result<(), Misfit>
    requires { ClaimBelow plan.old.top claim }
    ensures { (ws : List ℕ) → Formed ws plan.old.top → Planned Anywhere (always (exchanged_premises kind (claim_of ws claim))) ws ws plan.old.top (filled result plan.new) }
{
    let (a, b) = parts::sides(claim, kind)?;
    plan.ask([Atom::new(kind, b, a)]);
    Ok(())
}

// Rules 5 to 8: a claim a ~ b of the kind `whole` from a ~ m and m ~ b, for the rule's node m.
pub fn through(
    claim: Claim,
    whole: Comparison,
    first: Comparison,
    m: usize,
    second: Comparison,
    plan: &mut Plan,
) -> Result<(), Misfit>
    requires claim_below { ClaimBelow plan.old.top claim }
    requires node_below { m < plan.old.top }
    ensures { (ws : List ℕ) → Formed ws plan.old.top → Planned Anywhere (always (through_premises whole first (term_at ws m) second (claim_of ws claim))) ws ws plan.old.top (filled result plan.new) }
{
    let (a, b) = parts::sides(claim, whole)?;
    plan.ask([Atom::new(first, a, m), Atom::new(second, m, b)]);
    Ok(())
}

// Rules 9, 10 and 20: a claim a ~ b of the kind `whole` from a ~ b of another.
pub fn weakened(
    claim: Claim,
    whole: Comparison,
    other: Comparison,
    plan: &mut Plan,
) -> Result<(), Misfit>
    requires { ClaimBelow plan.old.top claim }
    ensures { (ws : List ℕ) → Formed ws plan.old.top → Planned Anywhere (always (weakened_premises whole other (claim_of ws claim))) ws ws plan.old.top (filled result plan.new) }
{
    let (a, b) = parts::sides(claim, whole)?;
    plan.ask([Atom::new(other, a, b)]);
    Ok(())
}

// Rule 19: a < b from a ≤ b, a ≠ b.
pub fn less(claim: Claim, plan: &mut Plan) -> Result<(), Misfit>
    requires { ClaimBelow plan.old.top claim }
    ensures { (ws : List ℕ) → Formed ws plan.old.top → Planned Anywhere (asks less_of_at_most (claim_of ws claim)) ws ws plan.old.top (filled result plan.new) }
{
    let (a, b) = parts::sides(claim, Comparison::Less)?;
    plan.ask([
        Atom::new(Comparison::AtMost, a, b),
        Atom::new(Comparison::Unequal, a, b),
    ]);
    Ok(())
}

// Rule 24: any claim from m < m.
pub fn contradicted(m: usize, plan: &mut Plan)
    requires { m < plan.old.top }
    ensures { (ws : List ℕ) → Formed ws plan.old.top → (c : Claimed) → Planned Anywhere (asks (contradiction (term_at ws m)) c) ws ws plan.old.top (Ok plan.new) }
{
    plan.ask([Atom::new(Comparison::Less, m, m)]);
}
