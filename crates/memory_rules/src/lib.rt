// The rules of memory: what each asks of a claim. New nodes stand from the table's top on, at most four of them.
#![tactic(auto, using(claims::proofs::StepLaws::steps, crate::proofs::RegionLaws::places), unfolding(model::specs::Rule::premises, model::specs::Rule::region_premises, model::specs::Rule::readable_of, model::specs::Rule::writable_of))]

ghost use Rattle.nodes.specs.Table.{Formed, Space};
ghost use Rattle.claims.specs.Parts.{claim_of, ClaimBelow};
ghost use Rattle.workspace.specs.Room.{new_nodes};
ghost use Rattle.claims.specs.Plan.{filled, Planned, asks};
ghost use Rattle.claims.specs.Regions.{RegionList, Over};
ghost use Rattle.memory_rules.specs.Access.{region_rule};

use claims::{Claim, Plan, parts};
use model::{Comparison, Misfit, Region, Right};
use nodes::Atom;

// Rules 22 and 23: readable(t), writable(t), from base ≤ t, t < base plus length, region j giving the right to each of its words.
// Two new nodes. Inlined for the reason at rules 12 and 28.
#[inline(always)]
pub fn in_region(
    regions: &[Region],
    ws: &mut [u32],
    claim: Claim,
    right: Right,
    j: usize,
    plan: &mut Plan,
) -> Result<(), Misfit>
    requires region_list { RegionList regions.now }
    requires formed { Formed ws.old plan.old.top }
    requires space { Space ws.old plan.old.top new_nodes }
    requires claim_below { ClaimBelow plan.old.top claim }
    ensures { Planned (Over regions.now) (asks (region_rule right j) (claim_of ws.old claim)) ws.old ws.new plan.old.top (filled result plan.new) }
{
    let top = plan.top;
    let (asked, t) = parts::accessed(claim)?;
    if asked != right {
        return Err(Misfit);
    }
    let region = regions.get(j).ok_or(Misfit)?;
    if !rights::grants_throughout(regions, region, right) {
        return Err(Misfit);
    }
    terms::put_constant(ws, top, region.base);
    terms::put_constant(ws, top + 1, region.base + region.size);
    plan.top = top + 2;
    plan.ask([
        Atom::new(Comparison::AtMost, top, t),
        Atom::new(Comparison::Less, t, top + 1),
    ]);
    Ok(())
}
