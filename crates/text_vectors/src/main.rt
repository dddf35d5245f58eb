// Typed answers, run on the examples of document 02, P1, and at its limits. Each case states the entries or the number that
// P1 gives and is compared with `hurnavis::read_text` and with every lent byte: an answer with one byte too few, with just
// enough and with more, a refusal with none and with more. A case that comes out differently is reported on a line.
#![tactic(auto)]

mod answers;
mod case;
mod limits;
mod refusals;

use std::io;
use vectors::tally::Tally;

fn main(rt: HostRuntime) -> io::Result<()> {
    let mut tally = Tally::new(rt.stdout());
    tally = answers::single(tally);
    tally = answers::grouped(tally);
    tally = answers::counted(tally);
    tally = answers::mixed(tally);
    tally = refusals::outside(tally);
    tally = refusals::over(tally);
    tally = refusals::bytes(tally);
    tally = limits::lengths(tally);
    tally = limits::entries(tally);
    tally.print("text vectors")
}
