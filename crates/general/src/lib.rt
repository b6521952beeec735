// Laws that belong to no layer, and the words in which proofs are written. No code.
#![tactic(auto)]
