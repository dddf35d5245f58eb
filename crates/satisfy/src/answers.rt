// What a list of sets of promises tells those that call each other, besides yes and no.
use sets::Set;

// Where a solution may be looked for.
#[derive(Clone, Copy)]
pub enum Guess {
    // Among so many listed sets.
    Among(usize),
    // Nowhere, if these entries alone have none.
    Without(Set),
    // There was no room for more sets.
    Nothing,
}

// What a list says of a problem.
#[derive(Clone, Copy)]
pub enum Said {
    // It has a solution.
    Yes,
    // It has none, and these entries are guessed to be the reason.
    No(Set),
    // The list had no room, or does not stand for all sets.
    Nothing,
}
