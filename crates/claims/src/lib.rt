// Claims, and what a rule asks of one: its plan.
#![tactic(auto)]

pub mod parts;
mod plans;

ghost use Rattle.std.specs.Prelude.{◌≤◌};

use nodes::Atom;

// What a goal or a premise claims; terms are nodes of the table.
#[derive(Clone, Copy)]
pub enum Claim {
    Atom(Atom),
    Readable(usize),
    Writable(usize),
}

// A claim at an instruction.
#[derive(Clone, Copy)]
pub struct Goal {
    pub claim: Claim,
    pub instruction: usize,
}

// What a claim is judged in: how many assumptions and variables there are.
#[derive(Clone, Copy)]
pub struct Scope {
    pub assumptions: usize,
    pub variables: usize,
}

// A rule of derivation with its argument: an index of an assumption, a node, or a region's number. In the order of the rule bytes.
#[derive(Clone, Copy)]
pub enum Rule {
    FromAssumption(usize),
    EqualReflexive,
    AtMostReflexive,
    Evaluation,
    EqualSymmetric,
    EqualTransitive(usize),
    AtMostTransitive(usize),
    LessAtMost(usize),
    AtMostLess(usize),
    AtMostOfLess,
    AtMostOfEqual,
    Congruence,
    Linear,
    ZeroAtMost,
    SumMonotone,
    DifferenceMonotone,
    SuccessorAtMost,
    BelowSuccessor,
    SumNoOverflow,
    LessOfAtMost,
    UnequalOfLess,
    UnequalSymmetric,
    InReadableRegion(usize),
    InWritableRegion(usize),
    Contradiction(usize),
    MaskAtMost,
    ShiftAtMost,
    ShiftBounded,
    LinearUnequal,
}

// What a rule asks of a claim that it fits: the first `count` of three premises; `top` is the table's new top. A rule fills a plan that it
// is lent: returned by value it would be copied at each level of a derivation.
#[derive(Clone, Copy)]
pub struct Plan {
    pub count: usize,
    pub premises: [Atom; 3],
    pub top: usize,
    ghost few: { count ≤ 3 },
}
