// The machine: one step of one instruction on lent registers and memory.
#![tactic(auto, unfolding(model::specs::Policy::readable_word, model::specs::Policy::writable_word))]

ghost use Rattle.std.specs.Prelude.{◌≡◌, ◌+◌, ◌<◌, length, get_or, set};
ghost use Rattle.model.specs.Package.{most_instructions};
ghost use Rattle.machine.specs.Step.{Ready, target, state, Executed};

use model::{Instruction, Region};

// What a step comes to: the counter to go on at, or why the run ends.
#[derive(Clone, Copy)]
pub enum Progress {
    Next(usize),
    Returned,
    WithoutRight,
}

// The word of a register.
fn word(registers: &[u32], r: u8) -> u32
    requires { r < length registers.now }
    ensures { result ≡ get_or registers.now r 0 }
{
    registers[usize::from(r)]
}

// words[at] := w, and on to the next instruction.
fn put(words: &mut [u32], at: usize, w: u32, counter: usize) -> Progress
    requires { (at < length words.old) × (counter < most_instructions) }
    ensures { (result ≡ Progress.Next (counter + 1)) × (words.new ≡ set words.old at w) }
{
    words[at] = w;
    Progress::Next(counter + 1)
}

// d := w.
fn assign(d: u8, w: u32, counter: usize, registers: &mut [u32]) -> Progress
    requires { (d < length registers.old) × (counter < most_instructions) }
    ensures { (result ≡ Progress.Next (counter + 1)) × (registers.new ≡ set registers.old d w) }
{
    put(registers, usize::from(d), w, counter)
}

// A jump to i if the branch is taken.
fn branch(taken: bool, i: u32, counter: usize) -> Progress
    requires { counter < most_instructions }
    ensures { result ≡ Progress.Next (target taken i counter) }
{
    if taken {
        return Progress::Next(i as usize);
    }
    Progress::Next(counter + 1)
}

// d := Mem[a + i], where that word may be read.
fn load(
    d: u8,
    a: u8,
    i: u32,
    counter: usize,
    regions: &[Region],
    registers: &mut [u32],
    memory: &[u32],
) -> Progress
    requires { Ready counter registers.old (Instruction.Load d a i) }
    ensures { Executed regions.now (Instruction.Load d a i) (state counter registers.old memory.now) result registers.new memory.now }
{
    let at = fields::add(word(registers, a), i) as usize;
    if rights::readable(regions, memory.len(), at) {
        let w = memory[at];
        return assign(d, w, counter, registers);
    }
    Progress::WithoutRight
}

// Mem[a + i] := d, where that word may be written.
fn store(
    d: u8,
    a: u8,
    i: u32,
    counter: usize,
    regions: &[Region],
    registers: &[u32],
    memory: &mut [u32],
) -> Progress
    requires { Ready counter registers.now (Instruction.Store d a i) }
    ensures { Executed regions.now (Instruction.Store d a i) (state counter registers.now memory.old) result registers.now memory.new }
{
    let at = fields::add(word(registers, a), i) as usize;
    if rights::writable(regions, memory.len(), at) {
        let w = word(registers, d);
        return put(memory, at, w, counter);
    }
    Progress::WithoutRight
}

// One step of one instruction.
pub fn execute(
    instruction: Instruction,
    counter: usize,
    regions: &[Region],
    registers: &mut [u32],
    memory: &mut [u32],
) -> Progress
    requires { Ready counter registers.old instruction }
    ensures { Executed regions.now instruction (state counter registers.old memory.old) result registers.new memory.new }
{
    match instruction {
        Instruction::Set { d, i } => assign(d, i, counter, registers),
        Instruction::Add { d, a, b } => {
            let w = fields::add(word(registers, a), word(registers, b));
            assign(d, w, counter, registers)
        }
        Instruction::AddImmediate { d, a, i } => {
            let w = fields::add(word(registers, a), i);
            assign(d, w, counter, registers)
        }
        Instruction::Subtract { d, a, b } => {
            let w = fields::sub(word(registers, a), word(registers, b));
            assign(d, w, counter, registers)
        }
        Instruction::Load { d, a, i } => load(d, a, i, counter, regions, registers, memory),
        Instruction::Store { d, a, i } => store(d, a, i, counter, regions, registers, memory),
        Instruction::Jump { i } => Progress::Next(i as usize),
        Instruction::JumpLess { a, b, i } => {
            let taken = word(registers, a) < word(registers, b);
            branch(taken, i, counter)
        }
        Instruction::JumpEqual { a, b, i } => {
            let taken = word(registers, a) == word(registers, b);
            branch(taken, i, counter)
        }
        Instruction::Return => Progress::Returned,
        Instruction::Mask { d, a, i } => {
            let w = fields::mask(word(registers, a), i);
            assign(d, w, counter, registers)
        }
        Instruction::Shift { d, a, i } => {
            let w = fields::shift(word(registers, a), i);
            assign(d, w, counter, registers)
        }
    }
}
