// What the programs that run document 01's boundaries share: packed tables, the tally of the cases, and lent words.
#![tactic(auto)]

pub mod description;
pub mod entries;
pub mod tally;
pub mod words;
