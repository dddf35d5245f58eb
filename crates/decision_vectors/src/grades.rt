// Grades: at their ends, and against each other.
use crate::case::{IMPOSSIBLE, POSSIBLE, decides, decides_last};
use vectors::description::Description;
use vectors::entries::{TRUE, and, at_least, at_most, fact, not};
use vectors::tally::Tally;

// At least so many and at most so many of p.
fn between(least: u32, most: u32) -> Description {
    Description::of(&[
        fact(1),
        at_least(least, 7, 0),
        at_most(most, 7, 0),
        and(1, 2),
    ])
}

// A grade with itself as the limit, and with one less.
fn pair(before: Tally, grade: u32) -> Tally {
    let tally = decides_last(before, between(grade, grade), 1, POSSIBLE);
    let less = grade.wrapping_sub(1);
    decides_last(tally, between(grade, less), 1, IMPOSSIBLE)
}

pub fn pairs(before: Tally) -> Tally {
    let mut tally = before.subject(11000);
    tally = pair(tally, 1);
    tally = pair(tally, 2);
    tally = pair(tally, 3);
    tally = pair(tally, 64);
    tally = pair(tally, 127);
    tally = pair(tally, 128);
    tally = pair(tally, 254);
    pair(tally, 255)
}

// Not at least 0; not at most 255, alone, with the same at most 255 beside it, and with at least 255; not at least 1.
pub fn ends(before: Tally) -> Tally {
    let mut d = Description::none()
        .entry(TRUE)
        .entry(at_least(0, 7, 0))
        .entry(not(1))
        .entry(at_most(255, 7, 0));
    d = d
        .entry(not(3))
        .entry(and(3, 4))
        .entry(at_least(255, 7, 0))
        .entry(and(4, 6));
    d = d
        .entry(at_least(1, 7, 0))
        .entry(not(8))
        .entry(and(1, 9))
        .entry(and(8, 9));
    let mut tally = before.subject(12000);
    tally = decides(tally, d, 1, 1, POSSIBLE);
    tally = decides(tally, d, 2, 1, IMPOSSIBLE);
    tally = decides(tally, d, 3, 1, POSSIBLE);
    tally = decides(tally, d, 4, 1, POSSIBLE);
    tally = decides(tally, d, 5, 1, IMPOSSIBLE);
    tally = decides(tally, d, 7, 1, POSSIBLE);
    tally = decides(tally, d, 9, 1, POSSIBLE);
    tally = decides(tally, d, 10, 1, POSSIBLE);
    decides(tally, d, 11, 1, IMPOSSIBLE)
}

// 256 of p, which "not at most 255" asks for, with a limit on all: 255 is too few.
fn more_of_p(part: u32) -> Description {
    Description::of(&[
        part,
        fact(1),
        at_most(255, 7, 0),
        at_most(255, 7, 1),
        not(3),
        and(2, 4),
    ])
}

// The limit on all binds p; a limit on another fact does not.
pub fn in_all(before: Tally) -> Tally {
    let mut tally = before.subject(13000);
    tally = decides_last(tally, more_of_p(TRUE), 1, IMPOSSIBLE);
    tally = decides_last(tally, more_of_p(fact(1)), 1, IMPOSSIBLE);
    decides_last(tally, more_of_p(fact(2)), 1, POSSIBLE)
}
