// The decision, run on document 01's examples, at its boundaries and on the deepest tables. Each case states the answer
// that follows from the meaning and is compared with `hurnavis::decide`, with words full of ones: one fewer than document
// 01's W, W, and two more. A case that comes out differently is reported on a line.
#![tactic(auto)]

mod case;
mod deep;
mod examples;
mod grades;
mod parts;
mod refusals;
mod relations;

use std::io;
use vectors::tally::Tally;

fn main(rt: HostRuntime) -> io::Result<()> {
    let mut tally = Tally::new(rt.stdout());
    tally = examples::false_parts(tally);
    tally = examples::both_ways(tally);
    tally = examples::overlap(tally);
    tally = examples::published(tally);
    tally = examples::one_fact(tally);
    tally = examples::sixty_four(tally);
    tally = parts::propositional(tally);
    tally = parts::alternatives(tally);
    tally = parts::shared(tally);
    tally = parts::unreached(tally);
    tally = grades::pairs(tally);
    tally = grades::ends(tally);
    tally = grades::in_all(tally);
    tally = relations::apart(tally);
    tally = relations::names(tally);
    tally = deep::nested(tally);
    tally = deep::chains(tally);
    tally = refusals::order(tally);
    tally.print("decision vectors")
}
