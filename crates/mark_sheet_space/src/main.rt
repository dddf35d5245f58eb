// The mark sheet, run on the input of `mark_sheet_wider` with a grade higher by 1: W is 8,208, refused 10.
#![tactic(auto)]

use std::io;

fn main(rt: HostRuntime) -> io::Result<()> {
    sheet::program::run(&rt)
}
