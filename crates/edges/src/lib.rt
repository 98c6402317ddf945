// Samples at the limits of packages and workspaces: each is built, judged by the checker, and printed with its answer.
#![tactic(auto)]

ghost use Rattle.std.specs.Prelude.{◌≡◌};
ghost use Rattle.model.specs.Verdict.{workspace_after};

use sample_bytes::packages::Package;
use sample_bytes::policies::Policy;
use std::io;

// Where samples are built and judged: the runtime that prints, and lent buffers.
#[derive(Drop)]
pub struct Desk<'a, R> {
    pub rt: &'a R,
    pub workspace: &'a mut [u32],
    pub policy: &'a mut [u8],
    pub routine: &'a mut [u8],
}

// Checks a package under a policy and prints the answer after the sample's name.
fn judge<R: Print>(
    rt: &R,
    name: &str,
    workspace: &mut [u32],
    policy: &[u8],
    routine: &[u8],
) -> io::Result<()>
    ensures { workspace.new ≡ workspace_after workspace.old }
{
    let verdict = loader::check(workspace, policy, routine);
    println!(rt; "{name}: {verdict}")
}

impl<R: Print> Desk<'_, R> {
    // Builds a package and a policy, and judges them.
    pub fn show(&mut self, name: &str, policy: Policy, package: Package) -> io::Result<()>
        ensures { self.new.workspace.now ≡ workspace_after self.old.workspace.now }
    {
        let policy = policy.write(self.policy);
        let routine = package.write(self.routine);
        judge(self.rt, name, self.workspace, policy, routine)
    }
}

// Instruction counts 512 and 513: assignments and a return, under a limit of as many steps.
pub fn instruction_counts<R: Print>(desk: &mut Desk<R>) -> io::Result<()> {
    desk.show("n = 512", Policy::small(512), Package::Assignments(511))?;
    desk.show("n = 513", Policy::small(513), Package::Assignments(512))
}

// The longest package, and one byte more.
pub fn longest<R: Print>(desk: &mut Desk<R>) -> io::Result<()> {
    desk.show("65536 bytes", Policy::small(1), Package::Padded(65536))?;
    desk.show("65537 bytes", Policy::small(1), Package::Padded(65537))
}

// A workspace one word too short.
pub fn short_workspace<R: Print>(desk: &mut Desk<R>) -> io::Result<()> {
    let package = Package::Assignments(0);
    desk.show("16384 words", Policy::small(1), package)?;
    if desk.workspace.len() < 16383 {
        return Ok(());
    }
    let policy = Policy::small(1).write(desk.policy);
    let routine = package.write(desk.routine);
    let workspace = &mut desk.workspace[..16383];
    judge(desk.rt, "16383 words", workspace, policy, routine)
}
