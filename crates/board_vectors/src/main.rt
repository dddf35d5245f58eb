// The board, run on document 01's examples and at its boundaries. Each case states the number that document 01 gives, 0
// for an answer, and the words, and is compared with `hurnavis::board`. A case that comes out differently is reported
// on a line.
#![tactic(auto)]

mod case;
mod copied;
mod counts;
mod full;
mod meanings;
mod records;
mod refusals;
mod rings;
mod rows;

use case::lends;
use records::Records;
use rows::Rows;
use std::io;
use vectors::entries::{FALSE, TRUE, and, at_least, at_most, fact, not};
use vectors::tally::Tally;

// The build of document 01, as it stands there: one link is stated twice.
fn example_build() -> Records {
    let mut build = Records::none().record(0x02_0000);
    build = build.record(0x41_0100);
    build = build.record(0x42_0100);
    build = build.record(0x42_0200);
    build = build.record(0x80_0704);
    build = build.record(0x80_0708);
    build.record(0x80_0704)
}

// M1 to M9, over their parts.
fn example_table() -> Rows {
    let mut rows = Rows::none().entry(fact(1), 6);
    rows = rows.entry(fact(2), 4);
    rows = rows.entry(FALSE, 0);
    rows = rows.entry(TRUE, 7);
    rows = rows.entry(not(1), 3);
    // M1 to M4.
    rows = rows.entry(at_least(2, 7, 0), 1);
    rows = rows.entry(at_least(3, 7, 0), 0);
    rows = rows.entry(at_most(1, 7, 1), 7);
    rows = rows.entry(at_most(0, 7, 1), 6);
    // M5 to M8; M1 is entry 5.
    rows = rows.entry(at_least(0, 7, 2), 7);
    rows = rows.entry(not(5), 6);
    rows = rows.entry(at_least(1, 8, 0), 0);
    rows = rows.entry(and(0, 4), 2);
    // M9.
    rows.entry(at_most(0, 7, 3), 6)
}

// The 14 entries, with too few words, just enough, and more.
fn examples(before: Tally) -> Tally {
    let rows = example_table();
    let build = example_build();
    let mut tally = before.subject(1000);
    tally = lends(tally, rows, build, 0, 10);
    tally = lends(tally, rows, build, 13, 10);
    tally = lends(tally, rows, build, 14, 0);
    tally = lends(tally, rows, build, 15, 0);
    lends(tally, rows, build, 66, 0)
}

fn main(rt: HostRuntime) -> io::Result<()> {
    let mut tally = Tally::new(rt.stdout());
    tally = examples(tally);
    tally = refusals::lengths(tally);
    tally = refusals::misplaced(tally);
    tally = refusals::zero_bits(tally);
    tally = refusals::worlds(tally);
    tally = refusals::space(tally);
    tally = refusals::within_structure(tally);
    tally = refusals::order(tally);
    tally = meanings::kinds(tally);
    tally = meanings::names(tally);
    tally = counts::grades(tally);
    tally = counts::relations(tally);
    tally = counts::repeated(tally);
    tally = counts::nested(tally);
    tally = full::all_linked(tally);
    tally = full::self_links(tally);
    tally = full::entries(tally);
    tally = full::records(tally);
    tally = full::chains(tally);
    tally = rings::rings(tally);
    tally = copied::numbers(tally);
    tally = copied::repeated(tally);
    tally = copied::sums(tally);
    tally = copied::greatest(tally);
    tally = copied::fourfold(tally);
    tally.print("board vectors")
}
