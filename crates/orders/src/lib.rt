// Theorems only: every order of the steps that are left of an object's phase completes it, once, at the last step.
#![tactic(auto)]
