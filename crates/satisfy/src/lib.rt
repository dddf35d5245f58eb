// Whether what is wanted can be had at some world of some finite structure.
#![tactic(auto)]

pub mod answers;
pub mod ask;
pub mod world;
