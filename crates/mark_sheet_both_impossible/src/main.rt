// The mark sheet, run on a fact and its negation at once beside false: an impossible answer beside an impossible model.
#![tactic(auto)]

use std::io;

fn main(rt: HostRuntime) -> io::Result<()> {
    sheet::program::run(&rt)
}
