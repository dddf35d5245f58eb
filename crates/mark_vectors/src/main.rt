// The mark, run on document 01's example, on each mark, at the ends of the grades and at its refusals. Each case states
// the mark that follows from the meaning and is compared with `hurnavis::mark`, both ways round, with words full of ones:
// one fewer than document 01's W, W, and two more. A case that comes out differently is reported on a line.
#![tactic(auto)]

mod case;
mod laws;
mod refusals;
mod steps;

use std::io;
use vectors::tally::Tally;

fn main(rt: HostRuntime) -> io::Result<()> {
    let mut tally = Tally::new(rt.stdout());
    tally = steps::example(tally);
    tally = steps::facts(tally);
    tally = steps::impossible(tally);
    tally = steps::impossible_counts(tally);
    tally = steps::grades(tally);
    tally = steps::relations(tally);
    tally = laws::connectives(tally);
    tally = laws::negated(tally);
    tally = laws::distributed(tally);
    tally = laws::typed_twice(tally);
    tally = laws::deep(tally);
    tally = refusals::order(tally);
    tally.print("mark vectors")
}
