// What a saved text says, line by line, and when it is a BadImage: theorems, no code.
#![tactic(auto)]
