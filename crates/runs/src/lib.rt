// The budgeted run of decoded code on lent registers and memory.
#![tactic(auto)]

ghost use Rattle.std.specs.Prelude.{◌≡◌};
ghost use Rattle.runs.specs.Ends.{end_number};
ghost use Rattle.runs.specs.Run.{Runnable, Ran};

use machine::Progress;
use model::{Instruction, Outcome, Region};

// Why a run ends.
#[derive(Clone, Copy)]
pub enum End {
    Returned,
    BudgetSpent,
    WithoutRight,
    PastEnd,
}

impl End {
    // The number that the runner's answer has for it.
    pub fn number(self) -> u32
        ensures { result ≡ end_number self }
    {
        match self {
            End::Returned => 0,
            End::BudgetSpent => 20,
            End::WithoutRight => 21,
            End::PastEnd => 22,
        }
    }
}

// The answer of a run that ends at a counter.
fn stopped(end: End, counter: usize, steps: u32) -> Outcome
    ensures { result ≡ record { number = end_number end; place = counter; steps = steps } }
{
    Outcome {
        number: end.number(),
        place: counter,
        steps,
    }
}

// Runs the code from its first instruction on, until a return, an access without the right, a counter at the end, or the end of the budget.
pub fn run_code(
    code: &[Instruction],
    regions: &[Region],
    registers: &mut [u32],
    memory: &mut [u32],
    budget: u32,
) -> Outcome
    requires { Runnable code.now registers.old }
    ensures { Ran code.now regions.now registers.old memory.old budget result registers.new memory.new }
{
    let mut counter = 0;
    for steps in 0..budget {
        if code.len() <= counter {
            return stopped(End::PastEnd, counter, steps);
        }
        match machine::execute(code[counter], counter, regions, registers, memory) {
            Progress::Next(to) => counter = to,
            Progress::Returned => return stopped(End::Returned, counter, steps + 1),
            Progress::WithoutRight => return stopped(End::WithoutRight, counter, steps),
        }
    }
    stopped(End::BudgetSpent, counter, budget)
}
