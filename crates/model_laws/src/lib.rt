// Laws over the definitions that several crates use, in proofs/: the steps of a `do` block, and the variables of premises. There is no code.
#![tactic(auto)]
