// The code of a package: its instructions.
#![tactic(auto)]

pub mod instructions;
