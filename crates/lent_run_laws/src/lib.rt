// Theorems only: going on with tables that were checked is the checked step, and a run of it the checked run.
#![tactic(auto)]
