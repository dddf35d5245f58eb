// Each mark, by facts, grades and relations.
use crate::case::{CROSSING, EQUAL, IMPOSSIBLE, NARROWER, WIDER, marks, marks_both, pair};
use vectors::description::Description;
use vectors::entries::{FALSE, TRUE, and, at_least, at_most, fact, not, or};
use vectors::tally::Tally;

// The mark sheet's example: at least 2 and at least 3 by relation 7 of fact 1.
pub fn example(before: Tally) -> Tally {
    let d = Description::of(&[fact(1), at_least(2, 7, 0), at_least(3, 7, 0)]);
    let mut tally = before.subject(1000);
    tally = marks(tally, d, pair(1, 2), 1, NARROWER);
    tally = marks(tally, d, pair(1, 1), 1, EQUAL);
    tally = marks(tally, d, pair(0, 0), 0, EQUAL);
    // W goes by the greater depth.
    marks(tally, d, pair(0, 2), 1, CROSSING)
}

// p, q, p and q, p or q, not p.
pub fn facts(before: Tally) -> Tally {
    let d = Description::of(&[fact(1), fact(2), and(0, 1), or(0, 1), not(0)]);
    let mut tally = before.subject(2000);
    tally = marks(tally, d, pair(0, 1), 0, CROSSING);
    tally = marks(tally, d, pair(0, 2), 0, NARROWER);
    tally = marks(tally, d, pair(0, 3), 0, WIDER);
    tally = marks(tally, d, pair(2, 3), 0, WIDER);
    tally = marks(tally, d, pair(0, 4), 0, CROSSING);
    marks(tally, d, pair(3, 4), 0, CROSSING)
}

// An impossible answer has a mark of its own, also beside an impossible model; a possible one beside an impossible model is
// wider.
pub fn impossible(before: Tally) -> Tally {
    let d = Description::of(&[TRUE, FALSE, fact(1), not(2), and(2, 3), or(2, 3)]);
    let mut tally = before.subject(3000);
    tally = marks_both(tally, d, pair(2, 1), 0, IMPOSSIBLE, WIDER);
    tally = marks_both(tally, d, pair(2, 4), 0, IMPOSSIBLE, WIDER);
    tally = marks_both(tally, d, pair(0, 1), 0, IMPOSSIBLE, WIDER);
    tally = marks_both(tally, d, pair(1, 4), 0, IMPOSSIBLE, IMPOSSIBLE);
    tally = marks_both(tally, d, pair(4, 4), 0, IMPOSSIBLE, IMPOSSIBLE);
    tally = marks(tally, d, pair(0, 5), 0, EQUAL);
    marks(tally, d, pair(5, 2), 0, NARROWER)
}

// The same by counts: 2 and at most 1 of p at once, at the world or at one that it is linked to.
pub fn impossible_counts(before: Tally) -> Tally {
    let d = Description::of(&[
        fact(1),
        at_least(2, 7, 0),
        at_most(1, 7, 0),
        and(1, 2),
        at_least(1, 7, 3),
        at_most(0, 7, 3),
        at_most(0, 8, 0),
    ]);
    let mut tally = before.subject(12000);
    tally = marks_both(tally, d, pair(1, 3), 1, IMPOSSIBLE, WIDER);
    tally = marks_both(tally, d, pair(6, 3), 1, IMPOSSIBLE, WIDER);
    tally = marks_both(tally, d, pair(2, 4), 2, IMPOSSIBLE, WIDER);
    tally = marks_both(tally, d, pair(5, 4), 2, IMPOSSIBLE, WIDER);
    tally = marks_both(tally, d, pair(3, 4), 2, IMPOSSIBLE, IMPOSSIBLE);
    marks(tally, d, pair(5, 6), 2, NARROWER)
}

// At least 0 says nothing, at most 255 something, not at most 255 is at least 256.
pub fn grades(before: Tally) -> Tally {
    let d = Description::of(&[
        TRUE,
        at_least(0, 7, 0),
        at_most(255, 7, 0),
        not(2),
        at_least(255, 7, 0),
        at_most(254, 7, 0),
        not(5),
        at_most(0, 7, 0),
        not(7),
        at_least(1, 7, 0),
    ]);
    let mut tally = before.subject(4000);
    tally = marks(tally, d, pair(0, 1), 1, EQUAL);
    tally = marks(tally, d, pair(0, 2), 1, NARROWER);
    tally = marks(tally, d, pair(4, 3), 1, NARROWER);
    tally = marks(tally, d, pair(2, 3), 1, CROSSING);
    tally = marks(tally, d, pair(4, 6), 1, EQUAL);
    tally = marks(tally, d, pair(2, 5), 1, NARROWER);
    tally = marks(tally, d, pair(2, 4), 1, CROSSING);
    tally = marks(tally, d, pair(7, 2), 1, WIDER);
    marks(tally, d, pair(8, 9), 1, EQUAL)
}

// The same count by two relations, and of two facts.
pub fn relations(before: Tally) -> Tally {
    let d = Description::of(&[
        fact(1),
        fact(2),
        at_least(1, 7, 0),
        at_least(1, 8, 0),
        at_least(1, 7, 1),
        at_most(0, 7, 0),
        at_most(0, 8, 0),
        and(2, 3),
        or(2, 3),
    ]);
    let mut tally = before.subject(5000);
    tally = marks(tally, d, pair(2, 3), 1, CROSSING);
    tally = marks(tally, d, pair(2, 4), 1, CROSSING);
    tally = marks(tally, d, pair(5, 6), 1, CROSSING);
    tally = marks(tally, d, pair(2, 7), 1, NARROWER);
    tally = marks(tally, d, pair(3, 8), 1, WIDER);
    marks(tally, d, pair(2, 5), 1, CROSSING)
}
