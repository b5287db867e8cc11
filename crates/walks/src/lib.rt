// Laws only, of the program logic: steps that the proofs by hand share, where a function takes or makes a reference to a struct.
#![tactic(auto)]
