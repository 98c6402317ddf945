// The limits of documents 01 and 02 as constants of code. Each has the value of the model's definition that is named beside it; functions that use
// one are proved against that definition.
#![tactic(auto)]

// most_instructions: instructions of a routine.
pub const MOST_INSTRUCTIONS: usize = 512;

// most_annotations: annotations of a routine.
pub const MOST_ANNOTATIONS: usize = 64;

// most_bytes: bytes of a package.
pub const MOST_BYTES: usize = 65536;

// most_regions: regions of a policy.
pub const MOST_REGIONS: usize = 8;

// most_atoms: atoms of a condition or an annotation.
pub const MOST_ATOMS: usize = 16;

// most_memory: words of memory.
pub const MOST_MEMORY: u32 = 16384;

// register_count: registers of the machine, which are the first variables of a block.
pub const REGISTERS: usize = 16;

// most_nodes: nodes of an expression.
pub const MOST_NODES: usize = 31;

// most_count: bits that a shift may shift by.
pub const MOST_COUNT: u32 = 31;

// most_term_nodes: nodes of a register's term.
pub const MOST_TERM_NODES: u32 = 255;

// most_levels: levels of a derivation.
pub const MOST_LEVELS: usize = 32;

// least_workspace: words of the lent workspace, at least.
pub const LEAST_WORKSPACE: usize = 16384;

// most_visits: instructions that a block may evaluate, those of all its paths counted.
pub const MOST_VISITS: usize = 4096;
