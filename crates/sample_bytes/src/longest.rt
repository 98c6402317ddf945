// The package of the longest path: 512 instructions in the block of one annotation, at index 0. Its sixteen atoms are 0 < 0, which the precondition
// of `Policy::Impossible` grants, so that any goal can be derived.
ghost use Rattle.std.specs.Prelude.{◌<◌};
ghost use Rattle.sample_bytes.specs.Buffer.{Same};

use crate::writing::Writer;

// An atom 0 < 0.
const ATOM: [u8; 11] = [2, 0, 0, 0, 0, 0, 0, 0, 0, 0, 0];

// The derivation of any goal: rule 24 with 0, and assumption 0.
const ANY: [u8; 9] = [24, 0, 0, 0, 0, 0, 0, 0, 0];

// How many bytes the annotation has: index 0, sixteen atoms, credit 0.
const SECTION: u32 = 2 + 1 + 5 + 16 * 11;

// How many bytes of the proof are for an edge to the annotation; and how many for where 0 is reached first and for the return.
const EDGE: u32 = 78;

const REST: u32 = 79;

// The sixteen atoms.
pub(crate) fn atoms(writer: &mut Writer)
    ensures { Same writer.old.out writer.new.out }
{
    writer.all(&ATOM, 16);
}

// A rule and a variable.
fn with_variable(writer: &mut Writer, rule: u8, variable: u16)
    ensures { Same writer.old.out writer.new.out }
{
    writer.byte(rule);
    writer.byte(1);
    writer.half(variable);
}

// The goals of an edge to the annotation: the atoms by assumption 0, the first on the credit as any, the second by rules 24 and 7 from
// the last assumption, which says that the last variable is itself.
fn edge(writer: &mut Writer, variable: u16, assumption: u16)
    ensures { Same writer.old.out writer.new.out }
{
    writer.repeat(0, 48);
    writer.all(&ANY, 1);
    with_variable(writer, 24, variable);
    with_variable(writer, 7, variable);
    writer.all(&ANY, 1);
    writer.byte(10);
    writer.byte(0);
    writer.half(assumption);
}

// The proof: the goals where 0 is reached first, those of the loads and the branches, and that of the return.
fn proof(writer: &mut Writer, loads: u32, branches: u16, variable: u16)
    requires { (loads < 512) × (branches < 513) }
    ensures { Same writer.old.out writer.new.out }
{
    writer.repeat(0, 48);
    writer.all(&ANY, 2 + loads);
    for branch in 0..branches {
        edge(writer, variable, 16 + branch);
    }
    with_variable(writer, 24, variable);
    writer.all(&ANY, 1);
}

// So many loads of register 0 from the word that it names, branches to 0 where register 0 is itself, and a return or one branch more.
pub(crate) fn longest(writer: &mut Writer, loads: u32, returns: bool)
    requires { loads < 512 }
    ensures { Same writer.old.out writer.new.out }
{
    let branches = 511 - loads + u32::from(!returns);
    let variable = if loads == 0 { 0 } else { 15 + loads };
    writer.half(512);
    writer.half(1);
    writer.word(SECTION);
    writer.word(REST + 9 * loads + EDGE * branches);
    writer.all(&[4, 0, 0, 0], loads);
    writer.all(&[8, 0, 0, 0], branches);
    if returns {
        writer.word(9);
    }
    writer.repeat(0, 4 * 512);
    writer.half(0);
    writer.byte(16);
    writer.repeat(0, 5);
    atoms(writer);
    proof(writer, loads, branches as u16, variable as u16);
}
