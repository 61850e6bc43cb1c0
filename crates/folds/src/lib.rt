// Definitions and laws only: what a loop over the numbers below a bound computes.
#![tactic(auto)]
