// Theorems about the values of a sheet and about lists of commands on it. No code.
#![tactic(auto)]
