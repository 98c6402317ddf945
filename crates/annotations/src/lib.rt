// The annotations of a package.
#![tactic(auto)]

pub mod reading;
