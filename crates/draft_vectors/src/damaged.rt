// Drafts that no sequence of steps gives: every call refuses them with 16, before anything else.
use crate::case::{from, run};
use crate::letters::entry;
use faults::Numbered;
use history::Draft;
use vectors::tally::Tally;

fn table_refusal(draft: Draft) -> u64 {
    let mut table = [0u8; 256];
    match hurnavis::draft_table(draft, &mut table) {
        Ok(_) => 0,
        Err(fault) => u64::from(fault.number()),
    }
}

// Every step, and the table: all are refused, or none is.
fn every(before: Tally, draft: Draft, expected: u8) -> Tally {
    let tally = before.case(table_refusal(draft), u64::from(expected));
    if expected == 0 {
        return from(tally, draft, b"+10 S00 B30 ").tally;
    }
    from(tally, draft, b"+1g +Kg S0g Szg B3g Beg ").tally
}

// Three entries, the name 3 saved with two of them, changed in a word.
fn word(before: Tally, i: usize, word: u32, expected: u8) -> Tally {
    let start = run(before, b"+10 +20 S30 +&0 ");
    let mut draft = start.draft;
    if let Some(place) = draft.entries.get_mut(i) {
        *place = word;
    }
    every(start.tally, draft, expected)
}

// The same, changed in a saved length.
fn length(before: Tally, name: usize, saved: u8, expected: u8) -> Tally {
    let start = run(before, b"+10 +20 S30 +&0 ");
    let mut draft = start.draft;
    if let Some(place) = draft.saved.get_mut(name) {
        *place = saved;
    }
    every(start.tally, draft, expected)
}

// The same, changed in the number of entries.
fn count(before: Tally, count: u8, expected: u8) -> Tally {
    let start = run(before, b"+10 +20 S30 +&0 ");
    let mut draft = start.draft;
    draft.count = count;
    every(start.tally, draft, expected)
}

pub fn drafts(before: Tally) -> Tally {
    let mut tally = before.subject(6000);
    // A bad entry, or anything behind the entries; another good entry is another history.
    tally = word(tally, 0, entry(b'n'), 16);
    tally = word(tally, 1, entry(b'k'), 16);
    tally = word(tally, 2, entry(b'u'), 16);
    tally = word(tally, 3, entry(b'1'), 16);
    tally = word(tally, 63, 1, 16);
    tally = word(tally, 63, 0, 0);
    tally = word(tally, 2, entry(b'|'), 0);
    // A length over the number of entries; as many, fewer and "not saved" are right.
    tally = length(tally, 0, 4, 16);
    tally = length(tally, 15, 64, 16);
    tally = length(tally, 7, 254, 16);
    tally = length(tally, 15, 3, 0);
    tally = length(tally, 15, 0, 0);
    tally = length(tally, 15, 255, 0);
    // Entries left behind, the saved length left behind, too many entries; "true" is the word 0.
    tally = count(tally, 2, 16);
    tally = count(tally, 0, 16);
    tally = count(tally, 65, 16);
    tally = count(tally, 255, 16);
    count(tally, 4, 0)
}
