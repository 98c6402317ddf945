// Decoding: the instruction of an operation word's bytes and an immediate, and where it may jump.
#![tactic(auto)]

ghost use Rattle.std.specs.Prelude.{◌≡◌, ◌&&◌};
ghost use Rattle.model.specs.Instruction.{register, unused, provided, decode, target_of, target_inside};

use limits::{MOST_COUNT, REGISTERS};
use model::{Instruction, Misfit};

// A byte is the number of a register.
fn register(number: u8) -> bool
    ensures { result ≡ register number }
{
    usize::from(number) < REGISTERS
}

// d and a are the numbers of registers, and b is unused.
fn two_registers(d: u8, a: u8, b: u8) -> bool
    ensures { result ≡ (register d && register a && unused b) }
{
    register(d) & register(a) & (b == 0)
}

// The instruction, if its fields are as they should be.
fn provided(fields: bool, instruction: Instruction) -> Result<Instruction, Misfit>
    ensures { result ≡ provided fields instruction }
{
    if fields { Ok(instruction) } else { Err(Misfit) }
}

// The instruction of an operation word's four bytes and an immediate. Inlined where it is called, as is what reads it from a package: handed back
// through memory it would be written byte by byte and read as a word, and the processor would wait for that.
#[inline(always)]
pub fn decode(op: u8, d: u8, a: u8, b: u8, i: u32) -> Result<Instruction, Misfit>
    ensures { result ≡ decode op d a b i }
{
    match op {
        0 => provided(register(d) & (a == 0) & (b == 0), Instruction::Set { d, i }),
        1 | 3 => {
            let fields = register(d) & register(a) & register(b) & (i == 0);
            if op == 1 {
                provided(fields, Instruction::Add { d, a, b })
            } else {
                provided(fields, Instruction::Subtract { d, a, b })
            }
        }
        2 => provided(
            two_registers(d, a, b),
            Instruction::AddImmediate { d, a, i },
        ),
        4..=5 => {
            if op == 4 {
                provided(two_registers(d, a, b), Instruction::Load { d, a, i })
            } else {
                provided(two_registers(d, a, b), Instruction::Store { d, a, i })
            }
        }
        6 => provided((d == 0) & (a == 0) & (b == 0), Instruction::Jump { i }),
        7..=8 => {
            let fields = (d == 0) & register(a) & register(b);
            if op == 7 {
                provided(fields, Instruction::JumpLess { a, b, i })
            } else {
                provided(fields, Instruction::JumpEqual { a, b, i })
            }
        }
        9 => provided(
            (d == 0) & (a == 0) & (b == 0) & (i == 0),
            Instruction::Return,
        ),
        10 => provided(two_registers(d, a, b), Instruction::Mask { d, a, i }),
        11 => {
            let fields = two_registers(d, a, b) & (i <= MOST_COUNT);
            provided(fields, Instruction::Shift { d, a, i })
        }
        _ => Err(Misfit),
    }
}

// The target of a jump.
pub fn target_of(instruction: Instruction) -> Option<u32>
    ensures { result ≡ target_of instruction }
{
    match instruction {
        Instruction::Jump { i } => Some(i),
        Instruction::JumpLess { i, .. } => Some(i),
        Instruction::JumpEqual { i, .. } => Some(i),
        _ => None,
    }
}

// A jump's target is below the instruction count.
pub fn target_inside(count: usize, instruction: Instruction) -> bool
    ensures { result ≡ target_inside count instruction }
{
    target_of(instruction).is_none_or(|target| (target as usize) < count)
}
