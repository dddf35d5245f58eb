// The shortest and the longest tables, and the deepest.
use crate::case::case;
use vectors::entries::{Room, chain, facts, pack, put};
use vectors::tally::Tally;

// Entries without a fault, cut at each length.
fn length_cases(before: Tally, table: Room) -> Tally {
    // No entry.
    let mut tally = case(before, table, 0, 1);
    // Around one entry.
    tally = case(tally, table, 1, 1);
    tally = case(tally, table, 2, 1);
    tally = case(tally, table, 3, 1);
    tally = case(tally, table, 4, 0);
    tally = case(tally, table, 5, 1);
    // 63 entries.
    tally = case(tally, table, 252, 0);
    // Around 64 entries, the most.
    tally = case(tally, table, 255, 1);
    tally = case(tally, table, 256, 0);
    tally = case(tally, table, 257, 1);
    // 65 entries.
    case(tally, table, 260, 1)
}

pub fn lengths(before: Tally) -> Tally {
    let tally = length_cases(before.subject(1000), [0u8; 260]);
    length_cases(tally, facts())
}

// The first entries of a table, as many as it may have and fewer.
fn prefixes(before: Tally, table: Room) -> Tally {
    let mut tally = before;
    for entries in 1..65 {
        tally = case(tally, table, 4 * entries, 0);
    }
    tally
}

// The deepest tables: entry i has depth i at most, so no table is refused for its depth (document 02, P4).
pub fn depths(before: Tally) -> Tally {
    // Counting entries over one fact, none to 63 of them.
    let at_least = chain(6, 6, 7, 1);
    let mut tally = prefixes(before.subject(10000), at_least);
    // 63 of them, at most, and the two in turn.
    tally = case(tally, chain(7, 7, 7, 1), 256, 0);
    tally = case(tally, chain(6, 7, 7, 255), 256, 0);
    tally = case(tally, chain(7, 6, 255, 0), 256, 0);
    // 63 times not.
    tally = case(tally, chain(3, 3, 0, 0), 256, 0);
    // Depth 64 takes one entry too many.
    tally = case(tally, at_least, 260, 1);
    // The deepest chain with a fault in its last entry.
    let mut faulty = at_least;
    put(&mut faulty, 63, pack(8, 0, 62, 0, 0));
    tally = case(tally, faulty, 256, 2);
    put(&mut faulty, 63, pack(6, 7, 62, 1, 1));
    tally = case(tally, faulty, 256, 3);
    put(&mut faulty, 63, pack(6, 7, 63, 0, 1));
    case(tally, faulty, 256, 4)
}
