// The reader that builds atoms in the term table: a comparison and its two expressions.
#![tactic(auto)]

ghost use Rattle.std.specs.Prelude.{◌≡◌};
ghost use Rattle.leaf_reader.specs.Leaves.{Ready};
ghost use Rattle.workspace.specs.Room.{atom_nodes};
ghost use Rattle.atom_reader.specs.AtomReader.{atom_answer, atom_read, AtomGrown};

use leaf_reader::Source;
use model::{Comparison, ReadError};
use nodes::Atom;

// What reading an atom gives: its comparison of nodes, the next position and the table's new top.
#[derive(Clone, Copy)]
pub struct AtomParsed {
    pub atom: Atom,
    pub next: usize,
    pub top: usize,
}

// The atom at `at`.
pub fn atom(source: &Source, ws: &mut [u32], at: usize, top: usize) -> Result<AtomParsed, ReadError>
    requires { Ready ws.old source.now.registers top atom_nodes }
    ensures answer { atom_answer ws.new result ≡ atom_read ws.old source.now at }
    ensures grown { AtomGrown ws.old ws.new source.now.end top result }
{
    if source.end <= at {
        return Err(ReadError::Missing);
    }
    let kind = Comparison::try_from(source.bytes[at]).map_err(|_| ReadError::Fault(at))?;
    let first = term_reader::expression(source, ws, at + 1, top)?;
    let second = term_reader::expression(source, ws, first.next, first.top)?;
    Ok(AtomParsed {
        atom: Atom::new(kind, first.node, second.node),
        next: second.next,
        top: second.top,
    })
}
