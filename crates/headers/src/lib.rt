// Worked headers, held to the definition of the import. No code.
#![tactic(auto)]
