// Copies: document 02, P7. The last two bits of a link are its copies less 1, of a repeated link the greatest number counts,
// and counting adds copies.
use crate::case::answers;
use crate::records::Records;
use crate::rows::Rows;
use vectors::entries::{TRUE, at_least, at_most, fact, not};
use vectors::tally::Tally;

// Two worlds, of which the first leads to the second by n copies: where at least and at most so many are led to.
fn least(n: u32, grade: u32) -> u64 {
    if grade == 0 {
        return 3;
    }
    if grade <= n { 1 } else { 0 }
}

fn most(n: u32, grade: u32) -> u64 {
    if n <= grade { 3 } else { 2 }
}

fn both(rows: Rows, n: u32, grade: u32) -> Rows {
    let with_least = rows.entry(at_least(grade, 7, 0), least(n, grade));
    with_least.entry(at_most(grade, 7, 0), most(n, grade))
}

// A case with all grades up to five.
fn number(tally: Tally, records: Records, n: u32) -> Tally {
    let mut rows = Rows::none().entry(TRUE, 3);
    rows = both(rows, n, 0);
    rows = both(rows, n, 1);
    rows = both(rows, n, 2);
    rows = both(rows, n, 3);
    rows = both(rows, n, 4);
    answers(tally, both(rows, n, 5), records)
}

// One link of each number of copies, and none.
pub fn numbers(before: Tally) -> Tally {
    let two = Records::of(2);
    let mut tally = number(before.subject(21000), two, 0);
    tally = number(tally, two.link(0, 7, 1), 1);
    tally = number(tally, two.links(0, 7, 1, 1), 1);
    tally = number(tally, two.links(0, 7, 1, 2), 2);
    tally = number(tally, two.links(0, 7, 1, 3), 3);
    tally = number(tally, two.links(0, 7, 1, 4), 4);
    // Another relation has copies of its own.
    tally = number(tally, two.links(0, 7, 1, 2).links(0, 8, 1, 4), 2);
    number(tally, two.links(0, 7, 1, 2).links(0, 6, 1, 3), 2)
}

// A link that is stated with a copies and again with b.
fn twice(tally: Tally, a: u32, b: u32) -> Tally {
    let records = Records::of(2)
        .links(0, 7, 1, a)
        .fact(1, 1)
        .links(0, 7, 1, b);
    let greater = if a < b { b } else { a };
    number(tally, records, greater)
}

fn twice_from(before: Tally, a: u32) -> Tally {
    let mut tally = twice(before, a, 1);
    tally = twice(tally, a, 2);
    tally = twice(tally, a, 3);
    twice(tally, a, 4)
}

// The greatest number counts, in every order: not the last, not the least, not the sum.
pub fn repeated(before: Tally) -> Tally {
    let mut tally = twice_from(before.subject(22000), 1);
    tally = twice_from(tally, 2);
    tally = twice_from(tally, 3);
    tally = twice_from(tally, 4);
    let thrice = Records::of(2)
        .links(0, 7, 1, 1)
        .links(0, 7, 1, 3)
        .links(0, 7, 1, 2);
    number(tally, thrice, 3)
}

// World 0 leads to itself once, to 1 twice and to 2 three times; fact 1 holds at 2. World 2 leads to 1 four times.
fn three() -> Records {
    Records::of(3)
        .links(0, 7, 0, 1)
        .links(0, 7, 1, 2)
        .links(0, 7, 2, 3)
        .links(2, 7, 1, 4)
        .fact(2, 1)
}

// Copies add up over the worlds where the part holds: 6, 0 and 4 of all; 3, 0, 0 where fact 1 holds; 3, 0, 4 where not.
pub fn sums(before: Tally) -> Tally {
    let parts = Rows::none()
        .entry(TRUE, 7)
        .entry(fact(1), 4)
        .entry(not(1), 3);
    let of_all = parts
        .entry(at_least(4, 7, 0), 5)
        .entry(at_least(5, 7, 0), 1)
        .entry(at_least(6, 7, 0), 1)
        .entry(at_least(7, 7, 0), 0)
        .entry(at_most(3, 7, 0), 2)
        .entry(at_most(4, 7, 0), 6)
        .entry(at_most(5, 7, 0), 6)
        .entry(at_most(6, 7, 0), 7);
    let of_fact = of_all
        .entry(at_least(3, 7, 1), 1)
        .entry(at_least(4, 7, 1), 0)
        .entry(at_most(2, 7, 1), 6)
        .entry(at_most(3, 7, 1), 7);
    let of_others = of_fact
        .entry(at_least(3, 7, 2), 5)
        .entry(at_least(4, 7, 2), 4)
        .entry(at_most(3, 7, 2), 3)
        .entry(at_most(4, 7, 2), 7);
    answers(before.subject(23000), of_others, three())
}

// World 0 leads to each of the first n of 64 worlds by four copies.
fn fan(n: u32) -> Records {
    let mut records = Records::of(64);
    for to in 0..n {
        records = records.links(0, 7, to, 4);
    }
    records
}

// Around 255, the greatest grade: 252, 255 and 256 copies.
pub fn greatest(before: Tally) -> Tally {
    let all = 0xffff_ffff_ffff_ffff;
    let rows = Rows::none().entry(TRUE, all);
    let few = rows
        .entry(at_least(252, 7, 0), 1)
        .entry(at_least(253, 7, 0), 0)
        .entry(at_most(251, 7, 0), all - 1)
        .entry(at_most(252, 7, 0), all);
    let mut tally = answers(before.subject(24000), few, fan(63));
    let just = rows
        .entry(at_least(255, 7, 0), 1)
        .entry(at_most(254, 7, 0), all - 1)
        .entry(at_most(255, 7, 0), all);
    tally = answers(tally, just, fan(63).links(0, 7, 63, 3));
    let above = rows
        .entry(at_least(255, 7, 0), 1)
        .entry(at_most(255, 7, 0), all - 1);
    answers(tally, above, fan(64))
}

// An entry whose word, where every world stands four times, has each bit four times.
fn standing(rows: Rows, entry: u32, word: u64, fourfold: bool) -> Rows {
    if fourfold {
        return rows.entry(
            entry,
            word % 2 * 15 + word / 2 % 2 * 240 + word / 4 % 2 * 3840,
        );
    }
    rows.entry(entry, word)
}

// The entries of `sums`, some of them nested, by three worlds or by their standings.
fn standings(fourfold: bool) -> Rows {
    let mut rows = standing(Rows::none(), TRUE, 7, fourfold);
    rows = standing(rows, fact(1), 4, fourfold);
    rows = standing(rows, at_least(6, 7, 0), 1, fourfold);
    rows = standing(rows, at_least(4, 7, 0), 5, fourfold);
    rows = standing(rows, at_most(3, 7, 1), 7, fourfold);
    rows = standing(rows, at_most(2, 7, 1), 6, fourfold);
    // To where four or more lead on, four copies lead from 0: one to itself, three to 2.
    rows = standing(rows, at_least(4, 7, 3), 1, fourfold);
    rows = standing(rows, at_least(5, 7, 3), 0, fourfold);
    standing(rows, at_most(0, 7, 2), 6, fourfold)
}

// A standing of world 0 and one of world 2, linked as `three` says: to the first of the target's four, as many as there are
// copies.
fn standing_links(records: Records, of_0: u32, of_2: u32) -> Records {
    let to_0_and_1 = records.link(of_0, 7, 0).link(of_0, 7, 4).link(of_0, 7, 5);
    let to_2 = to_0_and_1
        .link(of_0, 7, 8)
        .link(of_0, 7, 9)
        .link(of_0, 7, 10);
    to_2.link(of_2, 7, 4)
        .link(of_2, 7, 5)
        .link(of_2, 7, 6)
        .link(of_2, 7, 7)
}

// `three`, and the structure in which each of its worlds stands four times: w at 4w to 4w + 3.
pub fn fourfold(before: Tally) -> Tally {
    let tally = answers(before.subject(25000), standings(false), three());
    let facts = Records::of(12)
        .fact(8, 1)
        .fact(9, 1)
        .fact(10, 1)
        .fact(11, 1);
    let mut records = standing_links(facts, 0, 8);
    records = standing_links(records, 1, 9);
    records = standing_links(records, 2, 10);
    answers(tally, standings(true), standing_links(records, 3, 11))
}
