// Theorems about the definitions: what holds of every line and of every text, and the five sham panels. No code.
#![tactic(auto)]
