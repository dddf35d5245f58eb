// A case: a call of `hurnavis::check_table`, whose number is compared with what document 01 gives.
use faults::Numbered;
use vectors::entries::{Room, put};
use vectors::tally::Tally;

// The number for the first bytes of a table. More bytes than there are give 255, which no case expects.
fn answer(table: Room, bytes: usize) -> u8 {
    let Some(table) = table.get(..bytes) else {
        return 255;
    };
    hurnavis::check_table(table).number()
}

// A case on the first bytes of a table.
pub fn case(tally: Tally, table: Room, bytes: usize, expected: u8) -> Tally {
    tally.case(u64::from(answer(table, bytes)), u64::from(expected))
}

// A case on the first bytes of a table whose entries are all "true" but entry i.
pub fn one(tally: Tally, bytes: usize, i: usize, entry: u32, expected: u8) -> Tally {
    let mut table = [0u8; 260];
    put(&mut table, i, entry);
    case(tally, table, bytes, expected)
}

// A case on four entries, all "true" but entries 1 and 2.
pub fn two(tally: Tally, earlier: u32, later: u32, expected: u8) -> Tally {
    let mut table = [0u8; 260];
    put(&mut table, 1, earlier);
    put(&mut table, 2, later);
    case(tally, table, 16, expected)
}
