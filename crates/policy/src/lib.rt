// The policy: checks 3 to 6, in reading order. Its conditions are read here, its sizes and its regions by crates of their own.
#![tactic(auto)]

ghost use Rattle.std.specs.Prelude.{◌≡◌, ◌≤◌, length, IfOk};
ghost use Rattle.policy.specs.Conditions.{condition_end, conditions_result, conditions_of, Stands, BothStand};
ghost use Rattle.policy.specs.Policy.{policy_result, Checked};
ghost use Rattle.model.specs.Policy.{read_policy};

use limits::REGISTERS;
use model::{ReadError, Refusal, Sizes};
use policy_regions::Regions;

// A condition: so many atoms from a position of the policy's bytes on.
#[derive(Clone, Copy)]
pub struct Condition {
    pub at: usize,
    pub atoms: usize,
}

// A policy that passed checks 3 to 6.
#[derive(Clone, Copy)]
pub struct Policy {
    pub memory: u32,
    pub limit: u32,
    pub regions: Regions,
    pub precondition: Condition,
    pub postcondition: Condition,
}

// The position after a condition.
fn read_condition(bytes: &[u8], condition: Condition) -> Result<usize, Refusal>
    requires { condition.at ≤ length bytes.now }
    ensures end { result ≡ condition_end bytes.now condition }
    ensures stands { IfOk result (λ next. Stands bytes.now condition next) }
{
    expressions::atoms(bytes, bytes.len(), REGISTERS, condition.atoms, condition.at).map_err(
        |error| match error {
            ReadError::Missing => Refusal::PolicyLength(bytes.len()),
            ReadError::Fault(place) => Refusal::PolicyExpression(place),
        },
    )
}

// The two conditions, from a position on, if both are read and nothing stands after them.
fn read_conditions(
    bytes: &[u8],
    sizes: Sizes,
    start: usize,
) -> Result<(Condition, Condition), Refusal>
    requires { start ≤ length bytes.now }
    ensures read { conditions_result bytes.now result ≡ conditions_of bytes.now sizes start }
    ensures stand { IfOk result (λ conditions. BothStand bytes.now sizes start conditions.0 conditions.1) }
{
    let precondition = Condition {
        at: start,
        atoms: sizes.precondition,
    };
    let postcondition = Condition {
        at: read_condition(bytes, precondition)?,
        atoms: sizes.postcondition,
    };
    let end = read_condition(bytes, postcondition)?;
    if end != bytes.len() {
        return Err(Refusal::PolicyLength(end));
    }
    Ok((precondition, postcondition))
}

// The policy, with checks 3 to 6 in reading order.
pub fn read_policy(bytes: &[u8]) -> Result<Policy, Refusal>
    ensures read { policy_result bytes.now result ≡ read_policy bytes.now }
    ensures checked { IfOk result (λ policy. Checked bytes.now policy) }
{
    let sizes = policy_sizes::read_sizes(bytes)?;
    let start = 12 + 8 * sizes.regions;
    if bytes.len() < start {
        return Err(Refusal::PolicyLength(bytes.len()));
    }
    let regions = policy_regions::read_regions(bytes, sizes)?;
    let (precondition, postcondition) = read_conditions(bytes, sizes, start)?;
    Ok(Policy {
        memory: sizes.memory,
        limit: sizes.limit,
        regions,
        precondition,
        postcondition,
    })
}
