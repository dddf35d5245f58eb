// A case: calls of `hurnavis::mark`, the answer and every lent word compared with what documents 01 and 02 give.
use faults::Numbered;
use vectors::description::Description;
use vectors::tally::Tally;
use vectors::words::{ONES, compare};

// The numbers of the marks: document 01's, and document 02's 4. A refusal stands 100 above its number, so that it is no mark.
pub const EQUAL: u64 = 0;

pub const NARROWER: u64 = 1;

pub const WIDER: u64 = 2;

pub const CROSSING: u64 = 3;

pub const IMPOSSIBLE: u64 = 4;

const REFUSED: u64 = 100;

// Two entries of a table: the model's and the answer's.
#[derive(Clone, Copy)]
pub struct Entries {
    pub model: usize,
    pub answer: usize,
}

pub fn pair(model: usize, answer: usize) -> Entries {
    Entries { model, answer }
}

// The answer with the first `lent` words lent. More bytes or words than there are give 255, which no case expects.
fn call(d: Description, of: Entries, words: &mut [u64], lent: usize) -> u64 {
    let (Some(table), Some(words)) = (d.table.get(..d.bytes), words.get_mut(..lent)) else {
        return 255;
    };
    match hurnavis::mark(table, of.model, of.answer, words) {
        Ok(mark) => u64::from(mark.number()),
        Err(fault) => REFUSED + u64::from(fault.number()),
    }
}

// A case that lends so many words, of which so many are 0 afterwards.
fn lends(
    tally: Tally,
    d: Description,
    of: Entries,
    lent: usize,
    zeros: usize,
    expected: u64,
) -> Tally {
    let mut words = [ONES; 132098];
    let got = call(d, of, &mut words, lent);
    if got != expected {
        return tally.case(got, expected);
    }
    compare(tally, &words, zeros)
}

// A case that is refused and leaves all words as before.
pub fn refuses(tally: Tally, d: Description, of: Entries, lent: usize, expected: u8) -> Tally {
    lends(tally, d, of, lent, 0, REFUSED + u64::from(expected))
}

// Entries of this greater depth are marked in W words, and refused with one word less.
fn marks_once(before: Tally, d: Description, of: Entries, depth: usize, expected: u64) -> Tally {
    let needed = d.work(depth);
    let less = needed.wrapping_sub(1);
    let more = needed.wrapping_add(2);
    let mut tally = refuses(before, d, of, less, 10);
    tally = lends(tally, d, of, needed, needed, expected);
    lends(tally, d, of, more, needed, expected)
}

// The mark of a possible answer with answer and model exchanged, where the model is possible too.
fn exchanged(mark: u64) -> u64 {
    match mark {
        NARROWER => WIDER,
        WIDER => NARROWER,
        other => other,
    }
}

// A case both ways round, with the mark of each.
pub fn marks_both(
    before: Tally,
    d: Description,
    of: Entries,
    depth: usize,
    expected: u64,
    turned: u64,
) -> Tally {
    let tally = marks_once(before, d, of, depth, expected);
    let back = pair(of.answer, of.model);
    marks_once(tally, d, back, depth, turned)
}

// A case of two possible entries, both ways round.
pub fn marks(before: Tally, d: Description, of: Entries, depth: usize, expected: u64) -> Tally {
    marks_both(before, d, of, depth, expected, exchanged(expected))
}
