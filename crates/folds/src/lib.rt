// Definitions and laws only: tests over the numbers below a bound and over lists, and the lowest line of a table that holds.
#![tactic(auto)]
