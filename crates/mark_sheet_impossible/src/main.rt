// The mark sheet, run on a fact beside the fact and its negation at once: an impossible answer.
#![tactic(auto)]

use std::io;

fn main(rt: HostRuntime) -> io::Result<()> {
    sheet::program::run(&rt)
}
