// References that go down, and those that do not.
use crate::case::one;
use vectors::entries::pack;
use vectors::tally::Tally;

// The first reference of a kind.
fn reference_cases(before: Tally, kind: u32) -> Tally {
    // Entry 0 has nothing to refer to.
    let mut tally = one(before, 4, 0, pack(kind, 0, 0, 0, 0), 4);
    tally = one(tally, 256, 0, pack(kind, 0, 63, 0, 0), 4);
    // Entry 1, the first that may: one below, its own number.
    tally = one(tally, 8, 1, pack(kind, 0, 0, 0, 0), 0);
    tally = one(tally, 8, 1, pack(kind, 0, 1, 0, 0), 4);
    // Entry 5 as the last: the first entry, one below, its own number, one above and far above, both past the end.
    tally = one(tally, 24, 5, pack(kind, 0, 0, 0, 0), 0);
    tally = one(tally, 24, 5, pack(kind, 0, 4, 0, 0), 0);
    tally = one(tally, 24, 5, pack(kind, 0, 5, 0, 0), 4);
    tally = one(tally, 24, 5, pack(kind, 0, 6, 0, 0), 4);
    tally = one(tally, 24, 5, pack(kind, 0, 63, 0, 0), 4);
    // Entry 5 of 64: entries that are there, but later.
    tally = one(tally, 256, 5, pack(kind, 0, 6, 0, 0), 4);
    tally = one(tally, 256, 5, pack(kind, 0, 63, 0, 0), 4);
    // Entry 63: one below, its own number.
    tally = one(tally, 256, 63, pack(kind, 0, 62, 0, 0), 0);
    one(tally, 256, 63, pack(kind, 0, 63, 0, 0), 4)
}

// The kinds that use one.
pub fn references(before: Tally) -> Tally {
    let mut tally = before.subject(5000);
    for kind in 3..8 {
        tally = reference_cases(tally, kind);
    }
    tally
}

// Both references of a kind.
fn pair_cases(before: Tally, kind: u32) -> Tally {
    // Both fine: different, the other way round, equal.
    let mut tally = one(before, 32, 5, pack(kind, 0, 3, 4, 0), 0);
    tally = one(tally, 32, 5, pack(kind, 0, 4, 3, 0), 0);
    tally = one(tally, 32, 5, pack(kind, 0, 4, 4, 0), 0);
    // First fine, second not: its own number, one above, far above.
    tally = one(tally, 32, 5, pack(kind, 0, 4, 5, 0), 4);
    tally = one(tally, 32, 5, pack(kind, 0, 4, 6, 0), 4);
    tally = one(tally, 32, 5, pack(kind, 0, 0, 63, 0), 4);
    // Second fine, first not.
    tally = one(tally, 32, 5, pack(kind, 0, 5, 4, 0), 4);
    tally = one(tally, 32, 5, pack(kind, 0, 6, 4, 0), 4);
    tally = one(tally, 32, 5, pack(kind, 0, 63, 0, 0), 4);
    // Neither, and equal.
    tally = one(tally, 32, 5, pack(kind, 0, 5, 5, 0), 4);
    tally = one(tally, 32, 5, pack(kind, 0, 63, 63, 0), 4);
    // Entry 63: the second one below, its own number.
    tally = one(tally, 256, 63, pack(kind, 0, 0, 62, 0), 0);
    one(tally, 256, 63, pack(kind, 0, 0, 63, 0), 4)
}

// The kinds that use two.
pub fn reference_pairs(before: Tally) -> Tally {
    let mut tally = before.subject(6000);
    for kind in 4..6 {
        tally = pair_cases(tally, kind);
    }
    tally
}
