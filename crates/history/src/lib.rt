// Drafts to return to (document 02, P9): what a draft and a step are, by value. specs/ says what a history of steps gives and what the
// calls promise of it, proofs/ that a draft tells as much of its history as the next step asks for. No function is written here.
#![tactic(auto)]

// The saved length of a name that is not saved.
pub const NOT_SAVED: u8 = 255;

// The entries, packed as in a table, with 0 behind them; for each name how many entries were saved under it, or that it is not saved;
// the number of entries.
#[derive(Clone, Copy, Debug, PartialEq, Eq)]
pub struct Draft {
    pub entries: [u32; 64],
    pub saved: [u8; 16],
    pub count: u8,
}

// A step: an entry is added, the draft is saved under a name, or one comes back to a name.
#[derive(Clone, Copy, Debug, PartialEq, Eq)]
pub enum Step {
    Add(u32),
    Save(u8),
    Back(u8),
}
