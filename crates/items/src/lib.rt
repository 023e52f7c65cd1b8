// The worked items of document 01, as a theorem about its definitions. No code.
#![tactic(auto)]
