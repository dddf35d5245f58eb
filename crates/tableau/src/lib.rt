// The mathematics of the decision. Everything here is in specs/ and proofs/; there is no code to run.
#![tactic(auto)]
