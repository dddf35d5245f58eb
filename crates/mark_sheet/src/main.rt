// The mark sheet of document 01: reads the input, prints one line. This one is run on document 01's example.
#![tactic(auto)]

use std::io;

fn main(rt: HostRuntime) -> io::Result<()> {
    sheet::program::run(&rt)
}
