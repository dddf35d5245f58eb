// What a drawer of a structure, or a caller who lends too few words, is refused for.
use crate::case::{answers, lends, refuses};
use crate::records::{Records, fact_record, header, link_record};
use crate::rows::Rows;
use vectors::entries::{TRUE, at_least, fact, pack};
use vectors::tally::Tally;

// One entry, true at every world of these.
fn true_at(all: u64) -> Rows {
    Rows::none().entry(TRUE, all)
}

// A case that is refused, on one entry without a fault.
fn refused(tally: Tally, records: Records, expected: u8) -> Tally {
    refuses(tally, true_at(0), records, expected)
}

// 64 worlds, and records 1 to 1,024, of which the last is one too many: record i states fact i / 64 at world i % 64.
fn longest() -> Records {
    let mut records = Records::of(64);
    for i in 1..1025 {
        records = records.fact(i % 64, i / 64);
    }
    records
}

// A length that is accepted, with the worlds of fact 0 and fact 15 that the records then state.
fn length_case(tally: Tally, records: Records, length: usize, fact_0: u64, fact_15: u64) -> Tally {
    let rows = true_at(0xffff_ffff_ffff_ffff)
        .entry(fact(0), fact_0)
        .entry(fact(15), fact_15);
    answers(tally, rows, records.cut(length))
}

pub fn lengths(before: Tally) -> Tally {
    let records = longest();
    let mut tally = before.subject(2000);
    // Around no record, one and two.
    tally = refused(tally, records.cut(0), 6);
    tally = refused(tally, records.cut(1), 6);
    tally = refused(tally, records.cut(2), 6);
    tally = length_case(tally, records, 3, 0, 0);
    tally = refused(tally, records.cut(4), 6);
    tally = refused(tally, records.cut(5), 6);
    tally = length_case(tally, records, 6, 2, 0);
    tally = refused(tally, records.cut(7), 6);
    // Around 1,024 records, the most; the last states fact 15 at world 63.
    tally = length_case(
        tally,
        records,
        3069,
        0xffff_ffff_ffff_fffe,
        0x7fff_ffff_ffff_ffff,
    );
    tally = refused(tally, records.cut(3070), 6);
    tally = refused(tally, records.cut(3071), 6);
    tally = length_case(
        tally,
        records,
        3072,
        0xffff_ffff_ffff_fffe,
        0xffff_ffff_ffff_ffff,
    );
    tally = refused(tally, records.cut(3073), 6);
    tally = refused(tally, records.cut(3074), 6);
    // 1,025 records.
    refused(tally, records.cut(3075), 6)
}

// The header first and nowhere else, and no kind 3.
pub fn misplaced(before: Tally) -> Tally {
    let mut tally = before.subject(3000);
    // The first record is of another kind, alone and with a header behind it.
    tally = refused(tally, Records::none().fact(0, 1), 7);
    tally = refused(tally, Records::none().link(0, 7, 0), 7);
    tally = refused(tally, Records::none().record(0xc0_0000), 7);
    tally = refused(tally, Records::none().fact(0, 1).record(header(3)), 7);
    tally = refused(tally, Records::none().link(0, 7, 0).record(header(3)), 7);
    // A header again: the same, another, at once and as the last record.
    tally = refused(tally, Records::of(3).record(header(3)), 7);
    tally = refused(tally, Records::of(3).record(header(4)), 7);
    tally = refused(tally, Records::of(1).record(header(1)), 7);
    tally = refused(tally, Records::of(3).fact(0, 1).record(header(3)), 7);
    tally = refused(
        tally,
        Records::of(3).fact(0, 1).link(0, 7, 1).record(header(3)),
        7,
    );
    // Kind 3: empty, with fields, as the last record, before the last.
    tally = refused(tally, Records::of(3).record(0xc0_0000), 7);
    tally = refused(tally, Records::of(3).record(0xc1_0704), 7);
    tally = refused(tally, Records::of(3).record(0xff_ffff), 7);
    tally = refused(tally, Records::of(3).fact(0, 1).record(0xc0_0000), 7);
    tally = refused(tally, Records::of(3).record(0xc0_0000).fact(0, 1), 7);
    // None of it.
    answers(tally, true_at(7), Records::of(3).fact(0, 1).link(0, 7, 1))
}

// A record, behind others, with each of its lowest bits set alone, so many of them, from the highest down.
fn zero_bit_cases(before: Tally, others: Records, bits: u32, lowest: u32) -> Tally {
    let mut tally = before;
    for i in (0..lowest).rev() {
        tally = refused(tally, others.record(bits | 1 << (i % 32)), 7);
    }
    tally
}

// The 16 of a header, the 8 of a fact; the bit above each of them is none, and a link has none.
pub fn zero_bits(before: Tally) -> Tally {
    let three = Records::of(3);
    let mut tally = before.subject(4000);
    tally = zero_bit_cases(tally, Records::none(), header(3), 16);
    tally = answers(
        tally,
        true_at(15),
        Records::none().record(header(3) | 0x1_0000),
    );
    tally = zero_bit_cases(tally, three, fact_record(1, 2), 8);
    tally = answers(tally, true_at(7), three.record(fact_record(1, 2) | 0x100));
    tally = answers(tally, true_at(7), three.record(link_record(1, 7, 2) | 1));
    tally = answers(tally, true_at(7), three.record(link_record(1, 7, 2) | 2));
    tally = answers(tally, true_at(7), three.record(link_record(1, 7, 2) | 3));
    answers(tally, true_at(7), three.record(link_record(1, 7, 0) | 4))
}

// A fact at a world, and links by 7 that lead to it, from it, and both: refused.
fn outside(before: Tally, worlds: u32, world: u32) -> Tally {
    let records = Records::of(worlds);
    let mut tally = refused(before, records.fact(world, 1), 8);
    tally = refused(tally, records.link(0, 7, world), 8);
    tally = refused(tally, records.link(world, 7, 0), 8);
    refused(tally, records.link(world, 7, world), 8)
}

// Fact 1 at the last world, whose word is `top`, and a link by 7 from it to itself.
fn inside(tally: Tally, worlds: u32, all: u64, top: u64) -> Tally {
    let last = worlds.wrapping_sub(1);
    let records = Records::of(worlds)
        .fact(last, 1)
        .link(last, 7, last)
        .link(last, 8, 0);
    let mut rows = true_at(all).entry(fact(1), top);
    rows = rows.entry(at_least(1, 7, 1), top);
    answers(tally, rows.entry(at_least(1, 8, 0), top), records)
}

// World numbers below the number of worlds, at it, and at the highest.
fn world_cases(before: Tally, worlds: u32, all: u64) -> Tally {
    let tally = inside(before, worlds, all, all - all / 2);
    if 63 < worlds {
        return tally;
    }
    outside(outside(tally, worlds, worlds), worlds, 63)
}

// 1 to 64 worlds; `all` is the word of all of them.
pub fn worlds(before: Tally) -> Tally {
    let mut tally = before.subject(5000);
    let mut all: u64 = 0;
    for worlds in 1..65 {
        all = all.wrapping_add(all).wrapping_add(1);
        tally = world_cases(tally, worlds, all);
    }
    tally
}

// So many entries "true" at the only world.
fn true_entries(entries: usize) -> Rows {
    let mut rows = Rows::none();
    for i in 0..entries {
        rows = rows.entry(TRUE, 1);
    }
    rows
}

// One word too few, just enough, one to spare.
fn space_cases(before: Tally, entries: usize) -> Tally {
    let rows = true_entries(entries);
    let one = Records::of(1);
    let mut tally = lends(before, rows, one, 0, 10);
    tally = lends(tally, rows, one, entries.wrapping_sub(1), 10);
    tally = lends(tally, rows, one, entries, 0);
    lends(tally, rows, one, entries.wrapping_add(1), 0)
}

pub fn space(before: Tally) -> Tally {
    let mut tally = before.subject(6000);
    for entries in 1..65 {
        tally = space_cases(tally, entries);
    }
    tally
}

// 6, then record by record 7, 8, in structures of three worlds.
pub fn within_structure(before: Tally) -> Tally {
    let three = Records::of(3);
    let mut tally = before.subject(7000);
    // 6 before 7 and 8: a record that is cut short or has a byte too many behind it.
    tally = refused(tally, Records::none().record(0xc0_0000).cut(2), 6);
    tally = refused(tally, Records::none().record(0xc0_0000).cut(4), 6);
    tally = refused(tally, three.record(0xc0_0000).cut(7), 6);
    tally = refused(tally, three.fact(3, 1).cut(8), 6);
    // 7 before 8 in one record.
    tally = refused(tally, three.record(fact_record(3, 1) | 1), 7);
    tally = refused(tally, three.record(0xff_ffff), 7);
    // Copies are no reason for 7, and do not hide 8.
    tally = refused(tally, three.record(link_record(3, 7, 0) | 1), 8);
    tally = refused(tally, three.record(link_record(0, 7, 3) | 2), 8);
    // Of two records the earlier decides.
    tally = refused(tally, three.fact(3, 1).record(0xc0_0000), 8);
    tally = refused(tally, three.link(0, 7, 3).record(header(3)), 8);
    tally = refused(tally, three.record(0xc0_0000).fact(3, 1), 7);
    tally = refused(tally, three.record(header(3)).link(3, 7, 0), 7);
    tally = refused(tally, Records::none().record(header(3) | 1).fact(3, 1), 7);
    // A later header does not add worlds.
    tally = refused(tally, three.fact(3, 1).record(header(4)), 8);
    tally = refused(tally, three.record(header(4)).fact(3, 1), 7);
    // The first record is a fact, whose world is no number of worlds.
    tally = refused(tally, Records::none().fact(1, 1).fact(63, 1), 7);
    // A fault behind the end is none.
    tally = answers(tally, true_at(7), three.record(0xc0_0000).cut(3));
    answers(tally, true_at(7), three.fact(3, 1).cut(3))
}

// Four entries with the table's fault of this number, none for 0.
fn table_with(fault: u8) -> Rows {
    let fine = true_at(7).entry(fact(1), 2).entry(at_least(1, 7, 1), 1);
    match fault {
        0 => fine.entry(TRUE, 7),
        1 => fine.entry(TRUE, 7).cut(15),
        2 => fine.entry(pack(8, 0, 0, 0, 0), 0),
        3 => fine.entry(pack(0, 0, 0, 0, 1), 0),
        _ => fine.entry(pack(3, 0, 3, 0, 0), 0),
    }
}

// Three worlds with the structure's fault of this number, none for 0.
fn structure_with(fault: u8) -> Records {
    let fine = Records::of(3).fact(1, 1).link(0, 7, 1);
    match fault {
        0 => fine,
        6 => fine.cut(8),
        7 => fine.record(0xc0_0000),
        _ => fine.fact(3, 1),
    }
}

// The first of three numbers that is not 0.
fn earliest(first: u8, second: u8, third: u8) -> u8 {
    if first != 0 {
        return first;
    }
    if second != 0 {
        return second;
    }
    third
}

// A fault of the table, one of the structure, with too few words and with enough: the earliest counts.
fn order_case(before: Tally, of_table: u8, of_structure: u8) -> Tally {
    let rows = table_with(of_table);
    let records = structure_with(of_structure);
    let tally = lends(
        before,
        rows,
        records,
        3,
        earliest(of_table, of_structure, 10),
    );
    lends(tally, rows, records, 4, earliest(of_table, of_structure, 0))
}

pub fn order(before: Tally) -> Tally {
    let mut tally = before.subject(8000);
    for of_table in 0..5 {
        tally = order_case(tally, of_table, 0);
        tally = order_case(tally, of_table, 6);
        tally = order_case(tally, of_table, 7);
        tally = order_case(tally, of_table, 8);
    }
    tally
}
