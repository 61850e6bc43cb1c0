// What is proved of the base, in one statement. Definitions and theorems only, no code.
#![tactic(auto)]
