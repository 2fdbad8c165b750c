// Laws of the definitions that several crates' proofs cite; no code.
#![tactic(auto)]
