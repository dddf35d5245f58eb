// Refusals, and their order: the table's faults, then 9, then 10.
use crate::case::{POSSIBLE, lends, refuses};
use vectors::description::Description;
use vectors::entries::{TRUE, fact, not, pack};
use vectors::tally::Tally;

// A table with a fault, an entry that is there and one that is not, words enough and none.
fn faulty(before: Tally, d: Description, expected: u8) -> Tally {
    let mut tally = refuses(before, d, 0, 500, expected);
    tally = refuses(tally, d, 0, 0, expected);
    tally = refuses(tally, d, 200, 500, expected);
    refuses(tally, d, 200, 0, expected)
}

pub fn order(before: Tally) -> Tally {
    let good = Description::none().entry(TRUE).entry(fact(1));
    let mut tally = before.subject(18000);
    tally = faulty(tally, good.cut(0), 1);
    tally = faulty(tally, good.cut(3), 1);
    tally = faulty(tally, good.cut(9), 1);
    tally = faulty(tally, good.entry(pack(8, 0, 0, 0, 0)), 2);
    tally = faulty(tally, good.entry(pack(2, 1, 0, 0, 1)), 3);
    tally = faulty(tally, good.entry(not(2)), 4);
    // No such entry, before too few words.
    tally = refuses(tally, good, 2, 500, 9);
    tally = refuses(tally, good, 2, 0, 9);
    tally = refuses(tally, good, 0xffff_ffff_ffff_ffff, 500, 9);
    // W is 64.
    tally = refuses(tally, good, 1, 0, 10);
    tally = refuses(tally, good, 1, 63, 10);
    lends(tally, good, 1, 64, 64, POSSIBLE)
}
