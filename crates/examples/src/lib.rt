// Document 01, "Examples": P1 to P14 and what they answer, by computation. Definitions and theorems only, no code.
#![tactic(auto)]
