// Facts, "not", "and" and "or"; entries used more than once, and entries that the decided one does not reach.
use crate::case::{IMPOSSIBLE, POSSIBLE, decides, decides_last};
use vectors::description::Description;
use vectors::entries::{FALSE, TRUE, and, at_least, at_most, fact, not, or, pack};
use vectors::tally::Tally;

// Every entry of one table: p, q, their negations, and what is made of them.
pub fn propositional(before: Tally) -> Tally {
    let mut d = Description::none()
        .entry(TRUE)
        .entry(FALSE)
        .entry(not(0))
        .entry(not(1))
        .entry(fact(1));
    d = d
        .entry(not(4))
        .entry(and(4, 5))
        .entry(or(4, 5))
        .entry(not(7));
    d = d
        .entry(not(6))
        .entry(and(7, 9))
        .entry(and(1, 4))
        .entry(or(1, 4));
    let mut tally = before.subject(7000);
    tally = decides(tally, d, 0, 0, POSSIBLE);
    tally = decides(tally, d, 1, 0, IMPOSSIBLE);
    tally = decides(tally, d, 2, 0, IMPOSSIBLE);
    tally = decides(tally, d, 3, 0, POSSIBLE);
    tally = decides(tally, d, 4, 0, POSSIBLE);
    tally = decides(tally, d, 5, 0, POSSIBLE);
    tally = decides(tally, d, 6, 0, IMPOSSIBLE);
    tally = decides(tally, d, 7, 0, POSSIBLE);
    tally = decides(tally, d, 8, 0, IMPOSSIBLE);
    tally = decides(tally, d, 9, 0, POSSIBLE);
    tally = decides(tally, d, 10, 0, POSSIBLE);
    tally = decides(tally, d, 11, 0, IMPOSSIBLE);
    decides(tally, d, 12, 0, POSSIBLE)
}

// p and not p on one side of an "or", q on the other; then the same with not q beside it. Likewise for a negated "and".
pub fn alternatives(before: Tally) -> Tally {
    let d = Description::of(&[
        fact(1),
        not(0),
        and(0, 1),
        fact(2),
        not(3),
        or(2, 3),
        or(3, 2),
        and(5, 4),
        and(6, 4),
        // Not (p and q), beside p, beside q, beside both.
        and(0, 3),
        not(9),
        and(10, 0),
        and(10, 3),
        and(11, 12),
    ]);
    let mut tally = before.subject(8000);
    tally = decides(tally, d, 5, 0, POSSIBLE);
    tally = decides(tally, d, 6, 0, POSSIBLE);
    tally = decides(tally, d, 7, 0, IMPOSSIBLE);
    tally = decides(tally, d, 8, 0, IMPOSSIBLE);
    tally = decides(tally, d, 10, 0, POSSIBLE);
    tally = decides(tally, d, 11, 0, POSSIBLE);
    tally = decides(tally, d, 12, 0, POSSIBLE);
    decides(tally, d, 13, 0, IMPOSSIBLE)
}

// An entry doubled 62 times: its formula has more parts than a word can count.
fn doubled(bottom: u32, odd: u32, even: u32) -> Description {
    let mut d = Description::none().entry(bottom);
    for first in 0..62 {
        let kind = if first % 2 == 0 { odd } else { even };
        d = d.entry(pack(kind, 0, first, first, 0));
    }
    d
}

// "and" of an entry with itself, "or" of an entry with itself, both in turn; then the last negated.
pub fn shared(before: Tally) -> Tally {
    let mut tally = before.subject(9000);
    tally = decides_last(tally, doubled(fact(1), 4, 4), 0, POSSIBLE);
    tally = decides_last(tally, doubled(FALSE, 4, 4), 0, IMPOSSIBLE);
    tally = decides_last(tally, doubled(fact(1), 5, 5), 0, POSSIBLE);
    tally = decides_last(tally, doubled(FALSE, 5, 5), 0, IMPOSSIBLE);
    tally = decides_last(tally, doubled(fact(1), 4, 5), 0, POSSIBLE);
    tally = decides_last(tally, doubled(FALSE, 4, 5), 0, IMPOSSIBLE);
    tally = decides_last(tally, doubled(TRUE, 4, 5).entry(not(62)), 0, IMPOSSIBLE);
    decides_last(tally, doubled(fact(1), 5, 4).entry(not(62)), 0, POSSIBLE)
}

// Entry 1 says at least 2 of p. Around it stand entries that are impossible or would bind it, and that it does not use.
pub fn unreached(before: Tally) -> Tally {
    let d = Description::of(&[
        fact(1),
        at_least(2, 7, 0),
        at_most(1, 7, 0),
        not(0),
        and(0, 3),
        at_least(200, 7, 4),
        and(1, 2),
    ]);
    let mut tally = before.subject(10000);
    tally = decides(tally, d, 1, 1, POSSIBLE);
    tally = decides(tally, d, 2, 1, POSSIBLE);
    tally = decides(tally, d, 5, 1, IMPOSSIBLE);
    decides(tally, d, 6, 1, IMPOSSIBLE)
}
