// The largest: 64 worlds, 64 entries, 1,024 records.
use crate::case::answers;
use crate::records::Records;
use crate::rows::Rows;
use vectors::entries::{TRUE, at_least, at_most, fact, not};
use vectors::tally::Tally;

const ALL: u64 = 0xffff_ffff_ffff_ffff;

const WORLD_63: u64 = 0x8000_0000_0000_0000;

const BELOW_63: u64 = 0x7fff_ffff_ffff_ffff;

// Entries 0 to 2: true; fact 1, at world 63; not fact 1.
fn parts() -> Rows {
    Rows::none()
        .entry(TRUE, ALL)
        .entry(fact(1), WORLD_63)
        .entry(not(1), BELOW_63)
}

// World 63 leads to all 64 worlds.
pub fn all_linked(before: Tally) -> Tally {
    let mut records = Records::of(64).fact(63, 1);
    for to in 0..64 {
        records = records.link(63, 7, to);
    }
    let mut rows = parts()
        .entry(at_least(64, 7, 0), WORLD_63)
        .entry(at_least(65, 7, 0), 0)
        .entry(at_most(64, 7, 0), ALL);
    rows = rows
        .entry(at_most(63, 7, 0), BELOW_63)
        .entry(at_least(255, 7, 0), 0)
        .entry(at_most(255, 7, 0), ALL);
    rows = rows
        .entry(at_least(63, 7, 2), WORLD_63)
        .entry(at_least(64, 7, 2), 0)
        .entry(at_most(63, 7, 2), ALL);
    rows = rows
        .entry(at_most(62, 7, 2), BELOW_63)
        .entry(at_least(1, 7, 1), WORLD_63)
        .entry(at_least(0, 7, 0), ALL);
    answers(before.subject(15000), rows, records)
}

// Every world leads to itself.
pub fn self_links(before: Tally) -> Tally {
    let mut records = Records::of(64).fact(63, 1);
    for world in 0..64 {
        records = records.link(world, 7, world);
    }
    let mut rows = parts()
        .entry(at_least(1, 7, 0), ALL)
        .entry(at_least(2, 7, 0), 0)
        .entry(at_most(0, 7, 0), 0);
    rows = rows
        .entry(at_least(1, 7, 1), WORLD_63)
        .entry(at_most(0, 7, 1), BELOW_63)
        .entry(at_least(1, 7, 2), BELOW_63);
    answers(before.subject(16000), rows, records)
}

// The word of one world.
fn only(world: u32) -> u64 {
    1 << (world % 64)
}

fn with_fact(rows: Rows, name: u32) -> Rows {
    rows.entry(fact(name), only(name))
}

// 64 entries: fact i holds at world i alone.
pub fn entries(before: Tally) -> Tally {
    let mut records = Records::of(64);
    let mut rows = Rows::none();
    for i in 0..64 {
        records = records.fact(i, i);
        rows = with_fact(rows, i);
    }
    answers(before.subject(17000), rows, records)
}

// 1,023 times the same link.
fn same_link() -> Records {
    let mut records = Records::of(3);
    for _ in 0..1023 {
        records = records.link(0, 7, 2);
    }
    records
}

// 1,023 links: the worlds below 63 lead to the worlds 0 to 15, world 63 to the worlds 0 to 14.
fn many_links() -> Records {
    let mut records = Records::of(64);
    for i in 0..1023 {
        records = records.link(i / 16, 7, i % 16);
    }
    records
}

pub fn records(before: Tally) -> Tally {
    let mut same = Rows::none()
        .entry(TRUE, 7)
        .entry(at_least(1, 7, 0), 1)
        .entry(at_least(2, 7, 0), 0);
    same = same
        .entry(at_least(255, 7, 0), 0)
        .entry(at_most(1, 7, 0), 7)
        .entry(at_most(255, 7, 0), 7);
    let tally = answers(
        before.subject(18000),
        same.entry(at_most(0, 7, 0), 6),
        same_link(),
    );
    let mut many = Rows::none()
        .entry(TRUE, ALL)
        .entry(at_least(15, 7, 0), ALL)
        .entry(at_least(16, 7, 0), BELOW_63);
    many = many
        .entry(at_least(17, 7, 0), 0)
        .entry(at_most(15, 7, 0), WORLD_63)
        .entry(at_most(16, 7, 0), ALL);
    answers(
        tally,
        many.entry(at_most(14, 7, 0), 0)
            .entry(at_least(16, 7, 1), BELOW_63),
        many_links(),
    )
}

// World i leads to world i + 1 only, fact 1 holds at world 63: 1,024 records, most of them repeated.
fn path() -> Records {
    let mut records = Records::of(64).fact(63, 1);
    for i in 0..1022 {
        records = records.link(i % 63, 7, i % 63 + 1);
    }
    records
}

// Entry i, from 1 on, in a chain of "at least 1" over fact 1: true where i links lead to world 63.
fn with_least(rows: Rows, i: u32) -> Rows {
    rows.entry(
        at_least(1, 7, i.wrapping_sub(1)),
        only(63u32.wrapping_sub(i)),
    )
}

fn least_chain() -> Rows {
    let mut rows = Rows::none().entry(fact(1), WORLD_63);
    for i in 1..64 {
        rows = with_least(rows, i);
    }
    rows
}

// Two more entries of a chain of "at most 0" over fact 1. `seen` is the word of entry `first`, which is even: the worlds
// 63, 61, 59 and so on, one more with every second entry. The next is true but at the worlds that lead to these, and the
// one after it where nothing leads on to such a world.
fn with_most(rows: Rows, first: u32, seen: u64) -> Rows {
    let second = first.wrapping_add(1);
    rows.entry(at_most(0, 7, first), ALL - seen / 2)
        .entry(at_most(0, 7, second), seen / 4 | WORLD_63)
}

fn most_chain() -> Rows {
    let mut rows = Rows::none().entry(fact(1), WORLD_63);
    let mut seen = WORLD_63;
    for i in 0..31 {
        rows = with_most(rows, 2 * i, seen);
        seen = seen / 4 | WORLD_63;
    }
    rows.entry(at_most(0, 7, 62), 0xaaaa_aaaa_aaaa_aaaa)
}

// 63 counting entries over one fact.
pub fn chains(before: Tally) -> Tally {
    let tally = answers(before.subject(19000), least_chain(), path());
    answers(tally, most_chain(), path())
}
