// Laws on signed numbers, for the proofs of other crates. No code.

#![tactic(auto)]
