// The check of a table, run at its boundaries. Each case states the number that document 01 gives, 0 for an accepted
// table, and is compared with `hurnavis::check_table`. A case that comes out differently is reported on a line.
#![tactic(auto)]

mod case;
mod fields;
mod lengths;
mod order;
mod references;

use std::io;
use vectors::tally::Tally;

fn main(rt: HostRuntime) -> io::Result<()> {
    let mut tally = Tally::new(rt.stdout());
    tally = lengths::lengths(tally);
    tally = fields::kinds(tally);
    tally = fields::fields(tally);
    tally = fields::full_fields(tally);
    tally = references::references(tally);
    tally = references::reference_pairs(tally);
    tally = order::length_first(tally);
    tally = order::within_entry(tally);
    tally = order::between_entries(tally);
    tally = lengths::depths(tally);
    tally.print("table vectors")
}
