// Derivations: the choice among the rules, and the checker of a derivation in prefix form.
#![tactic(auto)]

ghost use Rattle.model.specs.Derivation.{most_levels};
ghost use Rattle.claims.specs.Parts.{claim_of};
ghost use Rattle.claims.specs.Rules.{rule_in};
ghost use Rattle.claims.specs.Regions.{RegionList};
ghost use Rattle.claims.specs.Plan.{filled, Planned, asks};
ghost use Rattle.derivation.specs.Deriving.{Judged, Plannable, Derivable, opened_in, Applies, Derives};

use claims::{Claim, Goal, Plan, Rule, Scope};
use limits::MOST_LEVELS;
use logic_rules::{exchanged, through, weakened};
use model::{Comparison, Misfit, Refusal, Region, Right};
use nodes::{Atom, Operation};

// What goals are derived by: the bytes of the package, in which the proof stands, and the policy's regions.
#[derive(Clone, Copy)]
pub struct Grounds<'a> {
    pub bytes: &'a [u8],
    pub regions: &'a [Region],
    pub ghost regions_fit: { RegionList regions.now },
}

// What a rule asks of a claim.
fn planned(
    grounds: &Grounds,
    scope: Scope,
    ws: &mut [u32],
    rule: Rule,
    claim: Claim,
    plan: &mut Plan,
) -> Result<(), Misfit>
    requires { Plannable ws.old grounds.now.regions.now scope rule claim plan.old.top }
    ensures { Planned (Judged grounds.now.regions.now ws.old scope) (asks (rule_in ws.old rule) (claim_of ws.old claim)) ws.old ws.new plan.old.top (filled result plan.new) }
{
    let regions = grounds.regions;
    let equal = Comparison::Equal;
    let unequal = Comparison::Unequal;
    let less = Comparison::Less;
    let at_most = Comparison::AtMost;
    match rule {
        Rule::FromAssumption(k) => logic_rules::assumed(ws, scope.assumptions, claim, k, plan),
        Rule::EqualReflexive => logic_rules::reflexive(ws, claim, equal, plan),
        Rule::AtMostReflexive => logic_rules::reflexive(ws, claim, at_most, plan),
        Rule::Evaluation => logic_rules::evaluated(ws, claim, plan),
        Rule::EqualSymmetric => exchanged(claim, equal, plan),
        Rule::EqualTransitive(m) => through(claim, equal, equal, m, equal, plan),
        Rule::AtMostTransitive(m) => { through(claim, at_most, at_most, m, at_most, plan) }
        Rule::LessAtMost(m) => through(claim, less, less, m, at_most, plan),
        Rule::AtMostLess(m) => through(claim, less, at_most, m, less, plan),
        Rule::AtMostOfLess => weakened(claim, at_most, less, plan),
        Rule::AtMostOfEqual => weakened(claim, at_most, equal, plan),
        Rule::Congruence => arithmetic_rules::congruent(ws, claim, plan),
        Rule::Linear => arithmetic_rules::apart(ws, scope.variables, claim, equal, plan),
        Rule::ZeroAtMost => arithmetic_rules::from_zero(ws, claim, plan),
        Rule::SumMonotone => arithmetic_rules::monotone(ws, claim, Operation::Sum, plan),
        Rule::DifferenceMonotone => {
            arithmetic_rules::monotone(ws, claim, Operation::Difference, plan)
        }
        Rule::SuccessorAtMost => arithmetic_rules::successor(ws, claim, plan),
        Rule::BelowSuccessor => arithmetic_rules::within_successor(ws, claim, plan),
        Rule::SumNoOverflow => arithmetic_rules::no_overflow(ws, claim, plan),
        Rule::LessOfAtMost => logic_rules::less(claim, plan),
        Rule::UnequalOfLess => weakened(claim, unequal, less, plan),
        Rule::UnequalSymmetric => exchanged(claim, unequal, plan),
        Rule::InReadableRegion(j) => {
            memory_rules::in_region(regions, ws, claim, Right::Read, j, plan)
        }
        Rule::InWritableRegion(j) => {
            memory_rules::in_region(regions, ws, claim, Right::Write, j, plan)
        }
        Rule::Contradiction(m) => {
            logic_rules::contradicted(m, plan);
            Ok(())
        }
        Rule::MaskAtMost => bit_rules::mask_at_most(ws, claim, plan),
        Rule::ShiftAtMost => bit_rules::shift_at_most(ws, claim, plan),
        Rule::ShiftBounded => bit_rules::shift_bounded(ws, claim, plan),
        Rule::LinearUnequal => {
            arithmetic_rules::apart(ws, scope.variables, claim, unequal, plan)
        }
    }
}

// The rule in the proof at a position, applied to a claim: fills its plan, and answers the position of the first premise's derivation.
fn apply(
    grounds: &Grounds,
    scope: Scope,
    ws: &mut [u32],
    claim: Claim,
    at: usize,
    plan: &mut Plan,
) -> Result<usize, Refusal>
    requires { Derivable ws.old grounds.now.regions.now scope 1 plan.old.top claim }
    ensures { Applies grounds.now.bytes.now grounds.now.regions.now ws.old ws.new scope plan.old.top claim at (opened_in result plan.new) }
{
    let opened = rule_reader::read_rule(grounds.bytes, ws, scope.variables, plan.top, at)?;
    plan.top = opened.top;
    planned(grounds, scope, ws, opened.rule, claim, plan).map_err(|_| Refusal::UnfitRule(at))?;
    Ok(opened.next)
}

// The derivation of a claim in the proof at a position, of at most so many levels: the position after it. What it builds above the top is
// free again when it returns.
pub fn derive(
    grounds: &Grounds,
    scope: Scope,
    ws: &mut [u32],
    levels: usize,
    top: usize,
    claim: Claim,
    at: usize,
) -> Result<usize, Refusal>
    requires { Derivable ws.old grounds.now.regions.now scope levels top claim }
    ensures { Derives grounds.now.bytes.now grounds.now.regions.now ws.old ws.new scope levels top claim at result }
{
    if levels == 0 {
        return Err(Refusal::DeepDerivation(at));
    }
    let mut plan = Plan::new(top);
    let next = apply(grounds, scope, ws, claim, at, &mut plan)?;
    let above = plan.top;
    let mut reached = next;
    for premise in plan.premises() {
        // taken apart for the reason at `nodes::Atom`
        let Atom { kind, left, right } = *premise;
        let due = Claim::Atom(Atom { kind, left, right });
        reached = derive(grounds, scope, ws, levels - 1, above, due, reached)?;
    }
    Ok(reached)
}

// The derivation of a goal's claim in the proof at a position, of at most so many levels as the limit says.
pub fn check_goal(
    grounds: &Grounds,
    scope: Scope,
    ws: &mut [u32],
    top: usize,
    goal: Goal,
    at: usize,
) -> Result<usize, Refusal>
    requires { Derivable ws.old grounds.now.regions.now scope most_levels top goal.claim }
    ensures { Derives grounds.now.bytes.now grounds.now.regions.now ws.old ws.new scope most_levels top goal.claim at result }
{
    let claim = goal.claim;
    derive(grounds, scope, ws, MOST_LEVELS, top, claim, at)
}
