// A case: calls of `hurnavis::read_text`, the answer and every lent byte compared with what document 02, P1, gives.
use faults::Numbered;
use vectors::description::Description;
use vectors::tally::Tally;

// A refusal stands 100 above its number, so that it is no number of entries.
const REFUSED: u64 = 100;

// What stands in each lent byte before a call.
const BEFORE: u8 = 0xb5;

// The answer with the first `lent` bytes lent. More than there are give 255, which no case expects.
fn call(text: &[u8], table: &mut [u8], lent: usize) -> u64 {
    let Some(table) = table.get_mut(..lent) else {
        return 255;
    };
    match hurnavis::read_text(text, table) {
        Ok(entries) => entries as u64,
        Err(fault) => REFUSED + u64::from(fault.number()),
    }
}

// A case that lends so many bytes, of which the table's are written and no other; 200 stands for a byte that is different.
fn lends(tally: Tally, text: &[u8], d: Description, lent: usize, expected: u64) -> Tally {
    let mut table = [BEFORE; 260];
    let got = call(text, &mut table, lent);
    if got != expected || table == d.written_over(BEFORE) {
        return tally.case(got, expected);
    }
    tally.case(200, expected)
}

// A text that is refused and leaves all bytes as before, whether none are lent or enough.
pub fn refuses(before: Tally, text: &[u8], expected: u8) -> Tally {
    let none = Description::none();
    let number = REFUSED + u64::from(expected);
    let tally = lends(before, text, none, 0, number);
    lends(tally, text, none, 260, number)
}

// A text that is read into this table, and refused with one byte less than that takes.
pub fn fills(before: Tally, text: &[u8], d: Description) -> Tally {
    let bytes = d.bytes;
    let less = bytes.wrapping_sub(1);
    let entries = (bytes / 4) as u64;
    let mut tally = lends(before, text, Description::none(), less, REFUSED + 10);
    tally = lends(tally, text, d, bytes, entries);
    lends(tally, text, d, 260, entries)
}

pub fn reads(tally: Tally, text: &[u8], entries: &[u32]) -> Tally {
    fills(tally, text, Description::of(entries))
}
