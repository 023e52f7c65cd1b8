// Theorems about the import: the panel accepts every line of it. No code.
#![tactic(auto)]
