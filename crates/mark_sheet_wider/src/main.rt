// The mark sheet, run on an impossible model beside an answer that always holds. Its W is 8,192, all that is lent.
#![tactic(auto)]

use std::io;

fn main(rt: HostRuntime) -> io::Result<()> {
    sheet::program::run(&rt)
}
