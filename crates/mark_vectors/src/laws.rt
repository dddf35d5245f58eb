// Descriptions that say the same in other words, and some that say a little more.
use crate::case::{CROSSING, EQUAL, IMPOSSIBLE, NARROWER, WIDER, marks, marks_both, pair};
use vectors::description::Description;
use vectors::entries::{FALSE, TRUE, and, at_least, at_most, fact, not, or};
use vectors::tally::Tally;

// Both orders of "and" and "or", twice not, and not (p and q) as not p or not q.
pub fn connectives(before: Tally) -> Tally {
    let d = Description::of(&[
        fact(1),
        fact(2),
        and(0, 1),
        and(1, 0),
        or(0, 1),
        or(1, 0),
        not(0),
        not(6),
        not(1),
        not(2),
        or(6, 8),
        not(4),
        and(6, 8),
    ]);
    let mut tally = before.subject(6000);
    tally = marks(tally, d, pair(2, 3), 0, EQUAL);
    tally = marks(tally, d, pair(4, 5), 0, EQUAL);
    tally = marks(tally, d, pair(0, 7), 0, EQUAL);
    tally = marks(tally, d, pair(9, 10), 0, EQUAL);
    tally = marks(tally, d, pair(11, 12), 0, EQUAL);
    marks(tally, d, pair(9, 12), 0, NARROWER)
}

// At least n is not at most n-1, and at most n is not at least n+1.
fn turned(tally: Tally, grade: u32) -> Tally {
    let less = grade.wrapping_sub(1);
    let d = Description::of(&[
        fact(1),
        at_least(grade, 7, 0),
        at_most(less, 7, 0),
        not(1),
        not(2),
    ]);
    let after = marks(tally, d, pair(1, 4), 1, EQUAL);
    marks(after, d, pair(2, 3), 1, EQUAL)
}

pub fn negated(before: Tally) -> Tally {
    let mut tally = before.subject(7000);
    tally = turned(tally, 1);
    tally = turned(tally, 2);
    tally = turned(tally, 3);
    tally = turned(tally, 128);
    turned(tally, 255)
}

// At most 0 of (p or q) is at most 0 of each; at least 1 of (p or q) is one or the other; at least 1 of (p and q) says more
// than at least 1 of each; at least 2 in all follows from at least 1 of p and 1 of not p.
pub fn distributed(before: Tally) -> Tally {
    let d = Description::of(&[
        fact(1),
        fact(2),
        or(0, 1),
        and(0, 1),
        at_most(0, 7, 2),
        at_most(0, 7, 0),
        at_most(0, 7, 1),
        and(5, 6),
        at_least(1, 7, 2),
        at_least(1, 7, 0),
        at_least(1, 7, 1),
        or(9, 10),
        and(9, 10),
        at_least(1, 7, 3),
        // Entries 14 to 18.
        TRUE,
        at_least(2, 7, 14),
        not(0),
        at_least(1, 7, 16),
        and(9, 17),
    ]);
    let mut tally = before.subject(8000);
    tally = marks(tally, d, pair(4, 7), 1, EQUAL);
    tally = marks(tally, d, pair(8, 11), 1, EQUAL);
    tally = marks(tally, d, pair(12, 13), 1, NARROWER);
    tally = marks(tally, d, pair(18, 15), 1, WIDER);
    marks(tally, d, pair(15, 18), 1, NARROWER)
}

// At least so many of p, at most so many of q, at least so many of q or of r by another relation.
fn description(d: Description, at: u32, grade: u32, more: u32) -> Description {
    let second = at.wrapping_add(1);
    let third = at.wrapping_add(2);
    let fourth = at.wrapping_add(3);
    let fifth = at.wrapping_add(4);
    let sixth = at.wrapping_add(5);
    d.entry(fact(1))
        .entry(fact(2))
        .entry(at_least(grade, 7, at))
        .entry(at_most(grade, 7, second))
        .entry(at_least(more, 8, second))
        .entry(and(third, fourth))
        .entry(and(fifth, sixth))
}

fn twice(grade: u32, more: u32) -> Description {
    description(
        description(Description::none(), 0, grade, grade),
        7,
        grade,
        more,
    )
}

// The same description typed twice, and once with one more.
pub fn typed_twice(before: Tally) -> Tally {
    let mut tally = before.subject(9000);
    tally = marks(tally, twice(1, 1), pair(6, 13), 1, EQUAL);
    tally = marks(tally, twice(2, 2), pair(6, 13), 1, EQUAL);
    tally = marks(tally, twice(100, 100), pair(6, 13), 1, EQUAL);
    tally = marks(tally, twice(255, 255), pair(6, 13), 1, EQUAL);
    tally = marks(tally, twice(1, 2), pair(6, 13), 1, NARROWER);
    marks(tally, twice(254, 255), pair(6, 13), 1, NARROWER)
}

// 31 times "at least 1" over p, and as often over another part.
fn two_chains(second: u32) -> Description {
    let mut d = Description::none().entry(fact(1)).entry(second);
    for first in 0..62 {
        d = d.entry(at_least(1, 7, first));
    }
    d
}

// Chains of depth 31 over the same, over p and not p, over p and p, and over p and false.
pub fn deep(before: Tally) -> Tally {
    let mut tally = before.subject(10000);
    tally = marks(tally, two_chains(fact(1)), pair(62, 63), 31, EQUAL);
    tally = marks(tally, two_chains(not(0)), pair(62, 63), 31, CROSSING);
    tally = marks(tally, two_chains(and(0, 0)), pair(62, 63), 31, EQUAL);
    marks_both(
        tally,
        two_chains(FALSE),
        pair(62, 63),
        31,
        IMPOSSIBLE,
        WIDER,
    )
}
