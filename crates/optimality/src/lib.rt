// Theorems about the panel's definitions: nobody can hold more. No code.
#![tactic(auto)]
