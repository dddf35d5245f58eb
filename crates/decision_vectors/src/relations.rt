// Relations do not bind each other, and a relation is not a name.
use crate::case::{IMPOSSIBLE, POSSIBLE, decides_last};
use vectors::description::Description;
use vectors::entries::{TRUE, and, at_least, at_most, fact};
use vectors::tally::Tally;

// At least 2 of p by one relation, at most 1 of p by another.
fn two(one: u32, other: u32) -> Description {
    Description::of(&[
        fact(1),
        at_least(2, one, 0),
        at_most(1, other, 0),
        and(1, 2),
    ])
}

// Two relations that both have a need and a limit, the second one too tight if the limit is below 2.
fn both_bound(limit: u32) -> Description {
    Description::of(&[
        fact(1),
        TRUE,
        at_least(3, 7, 0),
        at_most(3, 7, 1),
        at_least(2, 8, 0),
        at_most(limit, 8, 1),
        and(2, 3),
        and(4, 5),
        and(6, 7),
    ])
}

pub fn apart(before: Tally) -> Tally {
    let mut tally = before.subject(14000);
    tally = decides_last(tally, two(7, 7), 1, IMPOSSIBLE);
    tally = decides_last(tally, two(7, 8), 1, POSSIBLE);
    tally = decides_last(tally, two(0, 255), 1, POSSIBLE);
    tally = decides_last(tally, two(255, 0), 1, POSSIBLE);
    tally = decides_last(tally, two(0, 0), 1, IMPOSSIBLE);
    tally = decides_last(tally, two(255, 255), 1, IMPOSSIBLE);
    tally = decides_last(tally, two(127, 255), 1, POSSIBLE);
    tally = decides_last(tally, both_bound(2), 1, POSSIBLE);
    decides_last(tally, both_bound(1), 1, IMPOSSIBLE)
}

// A fact of one name here, one of another or of the same name on a successor, and a limit on that.
fn named(here: u32, there: u32, limited: u32) -> Description {
    Description::of(&[
        fact(here),
        fact(there),
        fact(limited),
        at_least(1, 0, 1),
        at_most(0, 0, 2),
        and(0, 3),
        and(4, 5),
    ])
}

pub fn names(before: Tally) -> Tally {
    let mut tally = before.subject(15000);
    tally = decides_last(tally, named(0, 0, 0), 1, IMPOSSIBLE);
    tally = decides_last(tally, named(0, 0, 255), 1, POSSIBLE);
    tally = decides_last(tally, named(0, 255, 255), 1, IMPOSSIBLE);
    tally = decides_last(tally, named(255, 255, 127), 1, POSSIBLE);
    decides_last(tally, named(1, 0, 1), 1, POSSIBLE)
}
