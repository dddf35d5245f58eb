// 63 counting entries on 1,024 records, the board of change request P3. The 64 worlds stand in a ring, and relation r leads
// from each of them to the next r + 1. So the word of an entry follows from that of its part by turning: no successor is
// looked up and nothing is counted.
use crate::case::answers;
use crate::records::Records;
use crate::rows::Rows;
use vectors::entries::{at_least, at_most, fact};
use vectors::tally::Tally;

const ALL: u64 = 0xffff_ffff_ffff_ffff;

// The worlds where fact 0 holds, without a pattern. World 5 is one of them, the last is none.
const FACT: u64 = 0x1e37_79b9_7f4a_7c35;

// Fact 0 at world i, or again at world 5.
fn with_fact(records: Records, i: u32) -> Records {
    if (FACT >> i % 64) & 1 == 1 {
        records.fact(i, 0)
    } else {
        records.fact(5, 0)
    }
}

fn with_facts() -> Records {
    let mut records = Records::of(64);
    for i in 0..63 {
        records = with_fact(records, i);
    }
    records
}

// The links of a relation from a world, five at the most.
fn with_links(before: Records, world: u32, relation: u32) -> Records {
    let mut records = before;
    for step in 1..6 {
        if step <= relation.wrapping_add(1) {
            records = records.link(world, relation, world.wrapping_add(step) % 64);
        }
    }
    records
}

// 5 relations and 15 links for each world.
fn ring() -> Records {
    let mut records = with_facts();
    for i in 0..320 {
        records = with_links(records, i / 5, i % 5);
    }
    records
}

// Place j has the worlds from which at least j of the steps passed lead to the part; `next` are those from which the next
// step does.
fn one_step(before: [u64; 8], next: u64) -> [u64; 8] {
    let mut enough = before;
    for j in 0..7 {
        enough[j + 1] = before[j + 1] | (before[j] & next);
    }
    enough
}

// The worlds from which at least so many of the next worlds, one to five, are in the part.
fn least(part: u64, worlds: u32, grade: u32) -> u64 {
    let mut enough = [ALL, 0, 0, 0, 0, 0, 0, 0];
    for passed in 0..5 {
        if passed < worlds {
            enough = one_step(enough, (part >> (passed + 1)) | (part << (63 - passed)));
        }
    }
    enough[(grade % 8) as usize]
}

// Entry i, from 1 on: grades up to 6, at least in turn with at most, over fact 0 or, for every third entry, over the one
// before it, whose word is `last`.
fn with_entry(rows: Rows, i: u32, last: u64) -> Rows {
    let first = if i % 3 == 0 { i.wrapping_sub(1) } else { 0 };
    let part = if i % 3 == 0 { last } else { FACT };
    let worlds = i % 5 + 1;
    if i % 2 == 0 {
        rows.entry(at_least(i % 7, i % 5, first), least(part, worlds, i % 7))
    } else {
        rows.entry(
            at_most(i % 7, i % 5, first),
            ALL - least(part, worlds, i % 7 + 1),
        )
    }
}

fn counting() -> Rows {
    let mut rows = Rows::none().entry(fact(0), FACT);
    let mut last: u64 = FACT;
    for i in 1..64 {
        rows = with_entry(rows, i, last);
        last = rows.words[i as usize];
    }
    rows
}

pub fn rings(before: Tally) -> Tally {
    answers(before.subject(20000), counting(), ring())
}
