// Document 01's examples of the decision, and a description that a published procedure gets wrong.
use crate::case::{IMPOSSIBLE, POSSIBLE, decides, decides_last, lends, refuses};
use vectors::description::Description;
use vectors::entries::{FALSE, TRUE, and, at_least, at_most, fact, facts, not};
use vectors::tally::Tally;

// At least 1 of false, at least 0 of false.
pub fn false_parts(before: Tally) -> Tally {
    let one = Description::of(&[FALSE, at_least(1, 7, 0)]);
    let none = Description::of(&[FALSE, at_least(0, 7, 0)]);
    let tally = decides_last(before.subject(1000), one, 1, IMPOSSIBLE);
    decides_last(tally, none, 1, POSSIBLE)
}

// At least 1 of p, at least 1 of not p, at most so many in all.
fn both(limit: u32) -> Description {
    Description::of(&[
        fact(1),
        not(0),
        TRUE,
        at_least(1, 7, 0),
        at_least(1, 7, 1),
        at_most(limit, 7, 2),
        and(3, 4),
        and(5, 6),
    ])
}

pub fn both_ways(before: Tally) -> Tally {
    let tally = decides_last(before.subject(2000), both(1), 1, IMPOSSIBLE);
    decides_last(tally, both(2), 1, POSSIBLE)
}

// At least 3 of p, at least 3 of q, at most 4 in all, at most so many of both.
fn overlapping(limit: u32) -> Description {
    Description::of(&[
        fact(1),
        fact(2),
        TRUE,
        and(0, 1),
        at_least(3, 7, 0),
        at_least(3, 7, 1),
        at_most(4, 7, 2),
        at_most(limit, 7, 3),
        and(4, 5),
        and(6, 7),
        and(8, 9),
    ])
}

pub fn overlap(before: Tally) -> Tally {
    let tally = decides_last(before.subject(3000), overlapping(1), 1, IMPOSSIBLE);
    decides_last(tally, overlapping(2), 1, POSSIBLE)
}

// Source 001, section 3.1: at least so many of p, at most 1 of not q, at most 1 of q. Every successor is one of the two.
fn split_by_q(grade: u32) -> Description {
    Description::of(&[
        fact(1),
        fact(2),
        not(1),
        at_least(grade, 7, 0),
        at_most(1, 7, 2),
        at_most(1, 7, 1),
        and(3, 4),
        and(5, 6),
    ])
}

pub fn published(before: Tally) -> Tally {
    let tally = decides_last(before.subject(4000), split_by_q(3), 1, IMPOSSIBLE);
    decides_last(tally, split_by_q(2), 1, POSSIBLE)
}

// A table with one fact: 47 words are refused, 48 are enough.
pub fn one_fact(before: Tally) -> Tally {
    let d = Description::of(&[fact(1)]);
    let mut tally = refuses(before.subject(5000), d, 0, 47, 10);
    tally = lends(tally, d, 0, 48, 48, POSSIBLE);
    lends(tally, d, 0, 49, 48, POSSIBLE)
}

// 64 facts are decided, the first and the last; 65 are refused.
pub fn sixty_four(before: Tally) -> Tally {
    let all = Description {
        table: facts(),
        bytes: 260,
        grades: 0,
    };
    let d = all.cut(256);
    let mut tally = decides(before.subject(6000), d, 0, 0, POSSIBLE);
    tally = decides(tally, d, 63, 0, POSSIBLE);
    tally = refuses(tally, d, 64, 1056, 9);
    refuses(tally, all, 0, 1100, 1)
}
