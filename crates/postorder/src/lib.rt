// The order in which a reader of text writes the entries of a formula; no code. specs/ says what the order is, proofs/ that such a
// table is accepted and that its last entry means the formula.
#![tactic(auto)]
