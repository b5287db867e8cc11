// Definitions and laws only: document 01's strikes, corners of it, and the answers that no trace reaches, computed from the definitions of the step.
#![tactic(auto)]
