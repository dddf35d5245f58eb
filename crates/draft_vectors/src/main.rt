// Drafts, run on the sentences of document 02, P9, and at its limits. A case is a row of steps, written as letters, with the number that
// P9 gives for each step and the draft that it gives at the end; every word and saved length is compared, and after a refusal the
// draft before it. A case that comes out differently is reported on a line.
#![tactic(auto)]

mod case;
mod damaged;
mod letters;
mod sentences;
mod tables;

use std::io;
use vectors::tally::Tally;

fn main(rt: HostRuntime) -> io::Result<()> {
    let mut tally = Tally::new(rt.stdout());
    tally = sentences::composed(tally);
    tally = sentences::saved(tally);
    tally = sentences::forgotten(tally);
    tally = sentences::refused(tally);
    tally = sentences::full(tally);
    tally = damaged::drafts(tally);
    tally = tables::bytes(tally);
    tally = tables::marked(tally);
    tally.print("draft vectors")
}
