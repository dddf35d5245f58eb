// The words lent to a call: full of ones before it, and what they are to be afterwards.
use crate::tally::Tally;

// What the lent words hold before a call.
pub const ONES: u64 = 0xffff_ffff_ffff_ffff;

// The first place where the words are not as they are to be: `zeros` words 0, the rest as before.
fn difference(words: &[u64], zeros: usize) -> Option<usize> {
    words
        .iter()
        .enumerate()
        .position(|(i, word)| *word != if i < zeros { 0 } else { ONES })
}

// Counts a case by its words: the first that differs is reported with its place.
pub fn compare(tally: Tally, words: &[u64], zeros: usize) -> Tally {
    let Some(i) = difference(words, zeros) else {
        return tally.case(0, 0);
    };
    tally.word(i);
    tally.case(1, 0)
}
