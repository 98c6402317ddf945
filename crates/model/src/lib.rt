// The types that the definitions in specs/ share with code.
#![tactic(auto)]

mod answers;
mod conversions;

// The kinds of comparison, in the order of their tags: 0, 1, 2, 3.
#[derive(Clone, Copy, PartialEq, Eq)]
pub enum Comparison {
    Equal,
    Unequal,
    Less,
    AtMost,
}

// A decoded instruction: a case for each operation, in the order of the operations' numbers.
// d, a and b are registers, i is the immediate.
#[derive(Clone, Copy)]
pub enum Instruction {
    // d := i
    Set { d: u8, i: u32 },
    // d := a + b
    Add { d: u8, a: u8, b: u8 },
    // d := a + i
    AddImmediate { d: u8, a: u8, i: u32 },
    // d := a - b
    Subtract { d: u8, a: u8, b: u8 },
    // d := Mem[a + i]
    Load { d: u8, a: u8, i: u32 },
    // Mem[a + i] := d
    Store { d: u8, a: u8, i: u32 },
    // jump to i
    Jump { i: u32 },
    // jump to i if a < b
    JumpLess { a: u8, b: u8, i: u32 },
    // jump to i if a = b
    JumpEqual { a: u8, b: u8, i: u32 },
    Return,
    // d := a masked with i, bit by bit
    Mask { d: u8, a: u8, i: u32 },
    // d := a shifted right by i, which is at most 31
    Shift { d: u8, a: u8, i: u32 },
}

// A region of memory; its rights are 1 read, 2 write, 3 both.
#[derive(Clone, Copy)]
pub struct Region {
    pub base: u32,
    pub size: u32,
    pub rights: u32,
}

// A right to a word of memory.
#[derive(Clone, Copy, PartialEq, Eq)]
pub enum Right {
    Read,
    Write,
}

// The policy's fields before its arrays: how many regions and atoms there are, M, and the step limit N.
#[derive(Clone, Copy)]
pub struct Sizes {
    pub regions: usize,
    pub precondition: usize,
    pub postcondition: usize,
    pub memory: u32,
    pub limit: u32,
}

// The package's header: instruction count n, annotation count, and the lengths in bytes of the annotation section and the proof.
#[derive(Clone, Copy)]
pub struct Header {
    pub instructions: usize,
    pub annotations: usize,
    pub section: usize,
    pub proof: usize,
}

// Why an input is refused: a case for each number of document 01 from 1 to 19, in their order, and then of document 02, with its place where that is not
// always 0.
#[derive(Clone, Copy)]
pub enum Refusal {
    // the workspace is under 16,384 words
    SmallWorkspace,
    // registers not 16 words, or memory not M words
    WrongStart,
    // policy bytes missing or spare
    PolicyLength(usize),
    // a count, the zero byte or M out of range
    PolicySize(usize),
    BadRegion(usize),
    PolicyExpression(usize),
    // a short header, a count out of range or a wrong length
    BadHeader(usize),
    // unknown operation, register above 15, unused field not zero
    BadInstruction(usize),
    // target n or more
    BadTarget(usize),
    // annotation index or atom count
    BadAnnotation(usize),
    // an expression of an annotation, or annotation bytes missing or spare
    AnnotationBytes(usize),
    // target at or below the jump's own index, without annotation
    Unannotated(usize),
    // evaluation passes the last instruction
    PastLast(usize),
    // register term over 255 nodes
    LargeTerm(usize),
    ProofExhausted(usize),
    // unknown rule, or rule, index or region that does not fit
    UnfitRule(usize),
    // 33rd level
    DeepDerivation(usize),
    BadArgument(usize),
    ProofLeft(usize),
    // 23: a block's 4,097th instruction
    LongBlock(usize),
}

// Why a field of a file cannot be read: its bytes are not all there, or what stands at a place is at fault.
#[derive(Clone, Copy)]
pub enum ReadError {
    Missing,
    Fault(usize),
}

// What is looked at has not the form that is asked for.
#[derive(Clone, Copy)]
pub struct Misfit;

// The checker's answer.
#[derive(Clone, Copy)]
pub struct Verdict {
    pub number: u32,
    pub place: usize,
    pub goals: usize,
}

// The finder's companion answer.
#[derive(Clone, Copy)]
pub struct Finding {
    pub number: u32,
    pub place: usize,
}

// The runner's answer.
#[derive(Clone, Copy)]
pub struct Outcome {
    pub number: u32,
    pub place: usize,
    pub steps: u32,
}
