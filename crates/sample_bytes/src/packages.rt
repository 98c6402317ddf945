// Packages.
ghost use Rattle.std.specs.Prelude.{◌≡◌, ◌≤◌, ◌<◌, length};
ghost use Rattle.sample_bytes.specs.Buffer.{Same};

use crate::longest;
use crate::writing::Writer;

// A package with no annotations: its code and its proof.
#[derive(Clone, Copy)]
pub enum Package {
    // so many assignments 0 := 0, then a return; the proof is rule 2
    Assignments(u32),
    // so many times 1 := 1 + 1, then a return; the proof is rule 2
    Doublings(u32),
    // so many times 1 := 1 + 1, then 1 := 1 >> by, then a return; the proof is rule 2
    Shifted {
        doublings: u32,
        by: u32,
    },
    // a return, and a proof by rule 10, so many times rule 4, and rule 1
    Deep(u32),
    // a return, and a proof by rule 2, so often that the package is so many bytes long
    Padded(u32),
    // 512 instructions on one path: so many loads, then branches, and at the end a return or one branch more
    Longest {
        loads: u32,
        returns: bool,
    },
    // so many assignments, then branches, each to the next instruction, then assignments and a return; for each of so many goals rule 3
    Branches {
        first: u32,
        branches: u32,
        last: u32,
        goals: u32,
    },
}

// The header of a package with no annotations.
fn header(writer: &mut Writer, instructions: u32, proof: u32)
    requires { instructions < 65536 }
    ensures { Same writer.old.out writer.new.out }
{
    writer.half(instructions as u16);
    writer.half(0);
    writer.word(0);
    writer.word(proof);
}

// So many instructions of one byte four times and immediate 0, then a return; the proof is rule 2.
fn alike(writer: &mut Writer, x: u8, count: u32)
    requires { count < 1000 }
    ensures { Same writer.old.out writer.new.out }
{
    header(writer, count + 1, 1);
    writer.repeat(x, 4 * count);
    writer.word(9);
    writer.repeat(0, 4 * count + 4);
    writer.byte(2);
}

// So many doublings, then a shift, then a return; the proof is rule 2.
fn shifted(writer: &mut Writer, count: u32, by: u32)
    requires { count < 1000 }
    ensures { Same writer.old.out writer.new.out }
{
    header(writer, count + 2, 1);
    writer.repeat(1, 4 * count);
    writer.word(0x0001010b);
    writer.word(9);
    writer.repeat(0, 4 * count);
    writer.word(by);
    writer.word(0);
    writer.byte(2);
}

// A return, with a proof of so many bytes to follow.
fn returning(writer: &mut Writer, proof: u32)
    ensures { Same writer.old.out writer.new.out }
{
    header(writer, 1, proof);
    writer.word(9);
    writer.word(0);
}

// So many assignments, then branches that lead to the next instruction on either edge, then assignments and a return; so many goals by rule 3.
fn branching(writer: &mut Writer, first: u32, branches: u32, last: u32, goals: u32)
    requires { (first < 1000) × ((branches < 1000) × (last < 1000)) }
    ensures { Same writer.old.out writer.new.out }
{
    header(writer, first + branches + last + 1, goals);
    writer.repeat(0, 4 * first);
    writer.all(&[8, 0, 0, 1], branches);
    writer.repeat(0, 4 * last);
    writer.word(9);
    writer.repeat(0, 4 * first);
    for branch in 0..branches {
        writer.word(first + branch + 1);
    }
    writer.repeat(0, 4 * last + 4);
    writer.repeat(3, goals);
}

impl Package {
    // The package's bytes, at the start of the buffer. Counts are taken modulo 1000, loads modulo 512.
    pub fn write(self, out: &mut [u8]) -> &[u8]
        ensures few { length result.now ≤ length out.old }
        ensures place { result.ref_ptr ≡ out.entry.ref_ptr }
    {
        let mut writer = Writer::new(out);
        match self {
            Package::Assignments(count) => alike(&mut writer, 0, count % 1000),
            Package::Doublings(count) => alike(&mut writer, 1, count % 1000),
            Package::Shifted { doublings, by } => shifted(&mut writer, doublings % 1000, by),
            Package::Deep(count) => {
                returning(&mut writer, count % 1000 + 2);
                writer.byte(10);
                writer.repeat(4, count % 1000);
                writer.byte(1);
            }
            Package::Longest { loads, returns } => {
                longest::longest(&mut writer, loads % 512, returns);
            }
            Package::Branches {
                first,
                branches,
                last,
                goals,
            } => branching(
                &mut writer,
                first % 1000,
                branches % 1000,
                last % 1000,
                goals,
            ),
            Package::Padded(size) => {
                if 20 <= size {
                    returning(&mut writer, size - 20);
                    writer.repeat(2, size - 20);
                }
            }
        }
        writer.written()
    }
}
