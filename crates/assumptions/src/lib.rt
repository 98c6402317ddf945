// The assumptions of a path, kept in the lent workspace below the term table, one word each.
#![tactic(auto)]

ghost use Rattle.std.specs.Prelude.{◌≡◌, ◌≤◌, ◌<◌, length};
ghost use Rattle.model.specs.Verdict.{least_workspace};
ghost use Rattle.workspace.specs.Layout.{most_assumptions, most_table_nodes};
ghost use Rattle.nodes.specs.Atoms.{atom_in, AtomBelow};
ghost use Rattle.assumptions.specs.Area.{entry_of, Listed, Pushed};

use model::Comparison;
use nodes::Atom;
use workspace::ASSUMPTIONS;

// Puts one more assumption after the first count.
pub fn push(ws: &mut [u32], count: usize, top: usize, assumption: Atom)
    requires room { (count < most_assumptions) × (top ≤ most_table_nodes) × (least_workspace ≤ length ws.old) }
    requires listed { Listed ws.old count top }
    requires sides_below { AtomBelow top assumption }
    ensures { Pushed ws.old ws.new count top (atom_in ws.old assumption) }
{
    let Atom { kind, left, right } = assumption;
    let tag = u32::from(kind) as usize;
    let word = tag + 4 * left + 65536 * right;
    ws[ASSUMPTIONS + count] = word as u32;
}

// Assumption k. Two bits always say a comparison.
pub fn get(ws: &[u32], k: usize) -> Atom
    requires { (k < most_assumptions) × (least_workspace ≤ length ws.now) }
    ensures { result ≡ entry_of ws.now k }
{
    let word = ws[ASSUMPTIONS + k];
    let kind = Comparison::try_from((word % 4) as u8).unwrap();
    Atom {
        kind,
        left: (word % 65536 / 4) as usize,
        right: (word / 65536) as usize,
    }
}
