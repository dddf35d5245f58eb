// A case: calls of `hurnavis::decide`, the answer and every lent word compared with what document 01 gives.
use faults::Numbered;
use vectors::description::Description;
use vectors::tally::Tally;
use vectors::words::{ONES, compare};

// Document 01's numbers of the answers. A refusal stands 100 above its number, so that it is no answer.
pub const IMPOSSIBLE: u64 = 0;

pub const POSSIBLE: u64 = 1;

pub const REFUSED: u64 = 100;

// The answer with the first `lent` words lent. More bytes or words than there are give 255, which no case expects.
fn call(d: Description, entry: usize, words: &mut [u64], lent: usize) -> u64 {
    let (Some(table), Some(words)) = (d.table.get(..d.bytes), words.get_mut(..lent)) else {
        return 255;
    };
    match hurnavis::decide(table, entry, words) {
        Ok(false) => IMPOSSIBLE,
        Ok(true) => POSSIBLE,
        Err(fault) => REFUSED + u64::from(fault.number()),
    }
}

// A case that lends so many words, of which so many are 0 afterwards.
pub fn lends(
    tally: Tally,
    d: Description,
    entry: usize,
    lent: usize,
    zeros: usize,
    expected: u64,
) -> Tally {
    let mut words = [ONES; 132098];
    let got = call(d, entry, &mut words, lent);
    if got != expected {
        return tally.case(got, expected);
    }
    compare(tally, &words, zeros)
}

// A case that is refused and leaves all words as before.
pub fn refuses(tally: Tally, d: Description, entry: usize, lent: usize, expected: u8) -> Tally {
    lends(tally, d, entry, lent, 0, REFUSED + u64::from(expected))
}

// An entry of this depth is decided in W words, and refused with one word less.
pub fn decides(before: Tally, d: Description, entry: usize, depth: usize, expected: u64) -> Tally {
    let needed = d.work(depth);
    let less = needed.wrapping_sub(1);
    let more = needed.wrapping_add(2);
    let mut tally = refuses(before, d, entry, less, 10);
    tally = lends(tally, d, entry, needed, needed, expected);
    lends(tally, d, entry, more, needed, expected)
}

// The same for the last entry.
pub fn decides_last(tally: Tally, d: Description, depth: usize, expected: u64) -> Tally {
    decides(tally, d, d.last(), depth, expected)
}
