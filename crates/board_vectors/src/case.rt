// A case: one call of `hurnavis::board`, its number and every word compared with what document 01 gives.
use crate::records::Records;
use crate::rows::{Rows, Words, before};
use faults::Numbered;
use vectors::tally::Tally;

// Counts a case by its words: the first that differs is reported with its place.
fn compare(tally: Tally, got: Words, expected: Words) -> Tally {
    for (i, word) in got.iter().enumerate() {
        if *word != expected[i] {
            tally.word(i);
            return tally.case(*word, expected[i]);
        }
    }
    tally.case(0, 0)
}

// The number of a call with the first `lent` words lent. More bytes or words than there are give 255, which no case expects.
fn call(rows: Rows, records: Records, words: &mut [u64], lent: usize) -> u8 {
    let table = rows.table.get(..rows.bytes);
    let structure = records.bytes.get(..records.length);
    let (Some(table), Some(structure), Some(words)) = (table, structure, words.get_mut(..lent))
    else {
        return 255;
    };
    hurnavis::board(table, structure, words).number()
}

// A case that lends so many words. A refusal leaves all of them as before.
pub fn lends(tally: Tally, rows: Rows, records: Records, lent: usize, expected: u8) -> Tally {
    let mut words = before();
    let got = call(rows, records, &mut words, lent);
    if got != expected {
        return tally.case(u64::from(got), u64::from(expected));
    }
    compare(
        tally,
        words,
        if expected == 0 { rows.words } else { before() },
    )
}

// A case that is answered, with words to spare.
pub fn answers(tally: Tally, rows: Rows, records: Records) -> Tally {
    lends(tally, rows, records, 66, 0)
}

// A case that is refused, although there are words to spare.
pub fn refuses(tally: Tally, rows: Rows, records: Records, expected: u8) -> Tally {
    lends(tally, rows, records, 66, expected)
}
