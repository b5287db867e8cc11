// Theorems only, about demand 3's theorem: it is not empty, and each of its conditions is needed or follows from the others.
#![tactic(auto)]
