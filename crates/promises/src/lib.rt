// What is asked of successors: what their promises come to, lists of sets of promises, the question of a relation, and what is
// learnt from the answers.
#![tactic(auto)]

pub mod learning;
pub mod listing;
pub mod promise;
pub mod relation;
