// The packed structure of document 01: its records, its check, and what an accepted one states.
#![tactic(auto)]

pub mod checking;
pub mod read;
pub mod record;
