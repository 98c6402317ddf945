// The instructions of a package: checks 8 and 9.
ghost use Rattle.std.specs.Prelude.{◌≡◌, ◌<◌, ◌≤◌, IfOk, All, length};
ghost use Rattle.model.specs.Result.{map_ok};
ghost use Rattle.model.specs.Package.{read_code};
ghost use Rattle.decoding.specs.Decoding.{Formed};
ghost use Rattle.routine.specs.Code.{instruction_at, code_checked};

use header::package::Package;
use model::{Instruction, Refusal};

// The instruction at an index, or what check 8 or 9 refuses there.
#[inline(always)]
pub fn instruction(routine: &Package, index: usize) -> Result<Instruction, Refusal>
    requires { index < routine.now.header.instructions }
    ensures is { result ≡ instruction_at routine.now.bytes.now routine.now.header index }
    ensures formed { IfOk result (Formed routine.now.header.instructions) }
{
    let bytes = routine.bytes;
    let count = routine.header.instructions;
    let at = 12 + 4 * index;
    let i = fields::word(bytes, 12 + 4 * count + 4 * index);
    let decoded = decoding::decode(bytes[at], bytes[at + 1], bytes[at + 2], bytes[at + 3], i);
    let instruction = decoded.map_err(|_| Refusal::BadInstruction(index))?;
    if !decoding::target_inside(count, instruction) {
        return Err(Refusal::BadTarget(index));
    }
    Ok(instruction)
}

// Checks 8 and 9 of every instruction in turn.
pub fn check_code(routine: &Package) -> Result<(), Refusal>
    ensures { result ≡ code_checked (read_code routine.now.bytes.now routine.now.header) }
{
    for index in 0..routine.header.instructions {
        instruction(routine, index)?;
    }
    Ok(())
}

// What stands in a line that is not read: an instruction whose bytes are all 0.
pub const BLANK: Instruction = Instruction::Set { d: 0, i: 0 };

// The instructions of a package, which then stand at the start of the lines, or what check 8 or 9 refuses. Each is formed for a code of their
// number. There are lines enough. It is a function of its own beside the run, which takes longer when it is laid out together with the decoding.
#[inline(never)]
pub fn read_code<'a>(
    routine: &Package,
    lines: &'a mut [Instruction],
) -> Result<&'a [Instruction], Refusal>
    requires { routine.now.header.instructions ≤ length lines.old }
    ensures is { map_ok (λ code. code.now) result ≡ read_code routine.now.bytes.now routine.now.header }
    ensures formed { IfOk result (λ code. All (Formed (length code.now)) code.now) }
{
    let size = routine.header.instructions;
    for index in 0..size {
        lines[index] = instruction(routine, index)?;
    }
    Ok(&lines[..size])
}
