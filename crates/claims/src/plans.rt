// Plans made, and their premises.
ghost use Rattle.std.specs.Prelude.{◌≡◌, [], ◌≤◌};
ghost use Rattle.claims.specs.Plan.{filled, listed, lists, none_where, Plans};

use crate::Plan;
use model::{Comparison, Misfit};
use nodes::Atom;

impl Plan {
    // No premises, over a table with this top.
    pub fn new(top: usize) -> Plan
        ensures { Plans [] top result }
    {
        let blank = Atom::new(Comparison::Equal, 0, 0);
        Plan {
            count: 0,
            premises: [blank; 3],
            top,
        }
    }

    // The premises, in order.
    pub fn premises(&self) -> &[Atom]
        ensures { result.now ≡ listed self.now }
    {
        &self.premises[..self.count]
    }

    // Asks these premises.
    pub fn ask<const N: usize>(&mut self, premises: [Atom; N])
        requires { N ≤ 3 }
        ensures { Plans premises.entry self.old.top self.new }
    {
        for (k, premise) in premises.iter().enumerate() {
            self.premises[k] = *premise;
        }
        self.count = N;
    }

    // Asks nothing, where the rule's test passes.
    pub fn ask_nothing_if(&mut self, fits: bool) -> Result<(), Misfit>
        ensures fits { lists (filled result self.new) ≡ none_where fits }
        ensures top { self.new.top ≡ self.old.top }
    {
        if !fits {
            return Err(Misfit);
        }
        self.ask([]);
        Ok(())
    }
}
