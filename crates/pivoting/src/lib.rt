// The steps of the simplex method, on a counting problem in lent words, in whole numbers. Nothing is promised of what they
// come to but that nothing is read or written past the end.
#![tactic(auto)]

pub mod frame;
pub mod number;
pub mod pivot;
pub mod solve;
pub mod start;
