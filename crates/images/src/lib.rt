// The saved text of a sheet, and the sheet of a text: definitions and laws, no code.
#![tactic(auto)]
