// The mark sheet, run on no input: refused 1.
#![tactic(auto)]

use std::io;

fn main(rt: HostRuntime) -> io::Result<()> {
    sheet::program::run(&rt)
}
