// Theorems only: what the steps of the block keep, release and leave.
#![tactic(auto)]
