// The entries of a draft as a table: its bytes, those behind them, too few bytes, and a mark.
use crate::case::run;
use faults::Numbered;
use history::Draft;
use vectors::description::Description;
use vectors::entries::{and, fact};
use vectors::tally::Tally;

// What stands in each lent byte before a call.
const BEFORE: u8 = 0xb5;

// The answer with the first `lent` bytes lent; a refusal stands 100 above its number.
fn call(draft: Draft, table: &mut [u8], lent: usize) -> u64 {
    let Some(table) = table.get_mut(..lent) else {
        return 255;
    };
    match hurnavis::draft_table(draft, table) {
        Ok(entries) => entries as u64,
        Err(fault) => 100 + u64::from(fault.number()),
    }
}

// A case that lends so many bytes, of which the table's are written and no other; 200 stands for a byte that is different.
fn lends(tally: Tally, draft: Draft, d: Description, lent: usize, expected: u64) -> Tally {
    let mut table = [BEFORE; 260];
    let got = call(draft, &mut table, lent);
    if table != d.written_over(BEFORE) {
        return tally.case(200, expected);
    }
    tally.case(got, expected)
}

pub fn bytes(before: Tally) -> Tally {
    let none = Description::none();
    let empty = run(before.subject(7000), b"");
    let mut tally = lends(empty.tally, empty.draft, none, 0, 0);
    tally = lends(tally, empty.draft, none, 260, 0);
    let three = run(tally, b"+10 +20 S30 +&0 ");
    let d = Description::of(&[fact(1), fact(2), and(0, 1)]);
    tally = lends(three.tally, three.draft, none, 11, 110);
    tally = lends(tally, three.draft, none, 0, 110);
    tally = lends(tally, three.draft, d, 12, 3);
    lends(tally, three.draft, d, 260, 3)
}

// At least two links to fact 1 beside at most 255 to fact 2, in a draft that was come back to.
pub fn marked(before: Tally) -> Tally {
    let last = run(before.subject(8000), b"+10 +20 +>0 S00 +k2 +f0 B00 +<0 ");
    let mut table = [BEFORE; 16];
    let mut words = [0u64; 8192];
    let n = call(last.draft, &mut table, 16);
    let tally = last.tally.case(n, 4);
    match hurnavis::mark(&table, 2, 3, &mut words) {
        Ok(mark) => tally.case(u64::from(mark.number()), 3),
        Err(fault) => tally.case(100 + u64::from(fault.number()), 3),
    }
}
