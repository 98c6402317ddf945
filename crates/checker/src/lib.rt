// The checker: checks 1 to 12, and then the routine's evaluation.
#![tactic(auto)]

ghost use Rattle.std.specs.Prelude.{◌≡◌, ◌≤◌, length};
ghost use Rattle.model.specs.Verdict.{least_workspace, check_of, workspace_after};
ghost use Rattle.model.specs.Routine.{read_routine};
ghost use Rattle.model.specs.Property.{Safe};
ghost use Rattle.workspace.specs.Layout.{area_words};
ghost use Rattle.policy.specs.Policy.{policy_of, Checked};
ghost use Rattle.forms.specs.Area.{Cleared};
ghost use Rattle.evaluation.specs.Blocks.{verdict_of};
ghost use Rattle.checker.specs.Checks.{routine_verdict, AnnotationsChecked};

use annotations::reading;
use header::package::Package;
use limits::LEAST_WORKSPACE;
use model::{Refusal, Verdict};
use policy::Policy;
use refusals::Refused;
use routine::instructions;
use setting::{Setting, Tables};
use workspace::AREA_WORDS;

// Makes the words zero in which linear forms are compared.
fn clear_area(workspace: &mut [u32])
    requires { area_words ≤ length workspace.old }
    ensures { Cleared workspace.new }
{
    workspace::clear(&mut workspace[..AREA_WORDS]);
}

// Checks 10, 11 and 12, and the evaluation of a routine that passes them; its code has been checked.
fn check_annotations<'x>(
    workspace: &mut [u32],
    conditions: &'x [u8],
    policy: Policy,
    routine: &Package<'x>,
) -> Result<usize, Refused>
    requires room { least_workspace ≤ length workspace.old }
    requires checked { Checked conditions.now policy }
    ensures { AnnotationsChecked routine.now.bytes.now (policy_of conditions.now policy) routine.now.header (verdict_of result) }
{
    let read = reading::read_annotations(routine)?;
    let annotations = read.as_slice();
    targets::check_targets(routine, annotations)?;
    clear_area(workspace);
    let tables = Tables {
        routine: *routine,
        annotations,
        regions: policy.regions.as_slice(),
    };
    let setting = Setting {
        conditions,
        policy,
        tables,
    };
    evaluation::evaluate(&setting, workspace)
}

// Checks 7, 8 and 9, and what comes after them.
fn check_package(
    workspace: &mut [u32],
    conditions: &[u8],
    policy: Policy,
    bytes: &[u8],
) -> Result<usize, Refused>
    requires room { least_workspace ≤ length workspace.old }
    requires checked { Checked conditions.now policy }
    ensures { verdict_of result ≡ routine_verdict bytes.now (policy_of conditions.now policy) (read_routine bytes.now) }
{
    let routine = header::read_package(bytes)?;
    instructions::check_code(&routine)?;
    check_annotations(workspace, conditions, policy, &routine)
}

// Checks 3 to 6, and what comes after them.
fn check_policy(workspace: &mut [u32], conditions: &[u8], bytes: &[u8]) -> Result<usize, Refused>
    requires { least_workspace ≤ length workspace.old }
    ensures { verdict_of result ≡ check_of (length workspace.old) conditions.now bytes.now }
{
    let policy = policy::read_policy(conditions)?;
    check_package(workspace, conditions, policy, bytes)
}

// The verdict of so many goals, all derived, or of a refusal.
#[tactic(auto, unfolding(evaluation::specs::Blocks::verdict_of))]
fn verdict(judged: Result<usize, Refused>) -> Verdict
    ensures { result ≡ verdict_of judged }
{
    match judged {
        Ok(goals) => Verdict {
            number: 0,
            place: 0,
            goals,
        },
        Err(refused) => Verdict::from(refused),
    }
}

// Judges a package under a policy. The workspace is left all zero; after 1, untouched.
pub fn check(workspace: &mut [u32], policy: &[u8], bytes: &[u8]) -> Verdict
    ensures verdict { result ≡ check_of (length workspace.old) policy.now bytes.now }
    ensures left { workspace.new ≡ workspace_after workspace.old }
    ensures safe { result.number ≡ 0 → Safe policy.now bytes.now }
{
    if workspace.len() < LEAST_WORKSPACE {
        return refusals::refusing(Refusal::SmallWorkspace, 0);
    }
    let judged = check_policy(workspace, policy, bytes);
    workspace::clear(workspace);
    verdict(judged)
}
