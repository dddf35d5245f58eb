// Refusals, and their order: the table's faults, then 9 for either entry, then 10.
use crate::case::{pair, refuses};
use vectors::description::Description;
use vectors::entries::{TRUE, at_least, not, pack};
use vectors::tally::Tally;

// A table with a fault, entries that are there and that are not, words enough and none.
fn faulty(before: Tally, d: Description, expected: u8) -> Tally {
    let mut tally = refuses(before, d, pair(0, 0), 500, expected);
    tally = refuses(tally, d, pair(0, 0), 0, expected);
    refuses(tally, d, pair(200, 200), 0, expected)
}

pub fn order(before: Tally) -> Tally {
    let good = Description::none().entry(TRUE).entry(at_least(1, 7, 0));
    let mut tally = before.subject(11000);
    tally = faulty(tally, good.cut(0), 1);
    tally = faulty(tally, good.cut(7), 1);
    tally = faulty(tally, good.entry(pack(15, 0, 0, 0, 0)), 2);
    tally = faulty(tally, good.entry(pack(0, 1, 0, 0, 0)), 3);
    tally = faulty(tally, good.entry(not(2)), 4);
    // One entry is not there, or neither is: before too few words.
    tally = refuses(tally, good, pair(2, 0), 500, 9);
    tally = refuses(tally, good, pair(0, 2), 500, 9);
    tally = refuses(tally, good, pair(2, 2), 0, 9);
    tally = refuses(tally, good, pair(0, 0xffff_ffff_ffff_ffff), 0, 9);
    // W is 8 x 2 x (4 + 2 + 4) by the deeper of the two, either way round.
    tally = refuses(tally, good, pair(0, 1), 159, 10);
    tally = refuses(tally, good, pair(1, 0), 159, 10);
    refuses(tally, good, pair(0, 0), 79, 10)
}
