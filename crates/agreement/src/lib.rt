// Demand 3: two boxes never contradict each other. Definitions and theorems only, no code.
#![tactic(auto)]
