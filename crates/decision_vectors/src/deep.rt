// Worlds behind worlds, to the depth of 63.
use crate::case::{IMPOSSIBLE, POSSIBLE, decides, decides_last};
use vectors::description::Description;
use vectors::entries::{FALSE, TRUE, and, at_least, at_most, fact, not, or, pack};
use vectors::tally::Tally;

// A successor of which p and not p is wanted, one step away and two.
fn clash_below() -> Description {
    Description::of(&[
        fact(1),
        not(0),
        and(0, 1),
        at_least(1, 7, 2),
        at_least(1, 7, 3),
        at_most(0, 7, 3),
        at_least(1, 7, 5),
    ])
}

// At least 2 whose successors include p, at most so many that have a successor at all.
fn limited_below(limit: u32) -> Description {
    Description::of(&[
        TRUE,
        fact(1),
        at_least(1, 7, 0),
        at_least(1, 7, 1),
        at_least(2, 7, 3),
        at_most(limit, 7, 2),
        and(4, 5),
    ])
}

// A successor with no successor p, that has one where p and q hold, or else one where q holds, if that is offered.
fn offered(other: u32) -> Description {
    Description::of(&[
        fact(1),
        fact(2),
        and(0, 1),
        at_most(0, 7, 0),
        at_least(1, 7, 2),
        at_least(1, 7, other),
        or(4, 5),
        and(3, 6),
        at_least(2, 8, 7),
    ])
}

pub fn nested(before: Tally) -> Tally {
    let mut tally = before.subject(16000);
    tally = decides(tally, clash_below(), 3, 1, IMPOSSIBLE);
    tally = decides(tally, clash_below(), 4, 2, IMPOSSIBLE);
    tally = decides(tally, clash_below(), 5, 2, POSSIBLE);
    tally = decides(tally, clash_below(), 6, 3, POSSIBLE);
    tally = decides_last(tally, limited_below(1), 2, IMPOSSIBLE);
    tally = decides_last(tally, limited_below(2), 2, POSSIBLE);
    tally = decides_last(tally, offered(0), 2, IMPOSSIBLE);
    decides_last(tally, offered(1), 2, POSSIBLE)
}

// 63 counting entries of one kind over a part.
fn chain(bottom: u32, kind: u32, grade: u32) -> Description {
    let mut d = Description::none().entry(bottom);
    for first in 0..63 {
        d = d.entry(pack(kind, 7, first, 0, grade));
    }
    d
}

// Chains of depth 63: at least 1, at least 0, at most 0, at most 1, over a fact, false and true.
pub fn chains(before: Tally) -> Tally {
    let mut tally = before.subject(17000);
    tally = decides_last(tally, chain(fact(1), 6, 1), 63, POSSIBLE);
    tally = decides_last(tally, chain(FALSE, 6, 1), 63, IMPOSSIBLE);
    tally = decides_last(tally, chain(FALSE, 6, 0), 63, POSSIBLE);
    tally = decides_last(tally, chain(fact(1), 7, 0), 63, POSSIBLE);
    tally = decides_last(tally, chain(TRUE, 7, 0), 63, POSSIBLE);
    tally = decides_last(tally, chain(FALSE, 7, 1), 63, POSSIBLE);
    // The middle of the chain, worked in fewer words.
    decides(tally, chain(FALSE, 6, 1), 31, 31, IMPOSSIBLE)
}
