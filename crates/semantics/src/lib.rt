// The meaning of formulas. Everything here is in specs/; there is no code to run.
#![tactic(auto)]
