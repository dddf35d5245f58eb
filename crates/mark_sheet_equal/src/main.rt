// The mark sheet, run on at least 2 beside not at most 1: equal.
#![tactic(auto)]

use std::io;

fn main(rt: HostRuntime) -> io::Result<()> {
    sheet::program::run(&rt)
}
