// The mark sheet, run on the longest input, 259 bytes: 64 facts, of which the last two cross.
#![tactic(auto)]

use std::io;

fn main(rt: HostRuntime) -> io::Result<()> {
    sheet::program::run(&rt)
}
