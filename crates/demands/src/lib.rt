// Theorems only: the three demands, a record each, a field to a sentence.
#![tactic(auto)]
