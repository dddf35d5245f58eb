// The longest texts and the most entries, and one more.
use crate::case::{fills, refuses};
use std::array;
use vectors::description::Description;
use vectors::entries::{TRUE, fact, not};
use vectors::tally::Tally;

// Room for more bytes than a text may have.
type Long = [u8; 1030];

// One byte so many times, then a part, then another byte as often as there is room.
fn long(ahead: usize, first: u8, part: &[u8], last: u8) -> Long {
    array::from_fn(|i| {
        if i < ahead {
            first
        } else {
            *part.get(i - ahead).unwrap_or(&last)
        }
    })
}

// The cases of the first bytes: refused with a number, or for 0 read into a table.
fn cut(tally: Tally, bytes: Long, length: usize, expected: u8, d: Description) -> Tally {
    let Some(text) = bytes.get(..length) else {
        return tally.case(1, 0);
    };
    if expected == 0 {
        return fills(tally, text, d);
    }
    refuses(tally, text, expected)
}

// The same of one byte fewer, of so many, and of one more.
fn around(before: Tally, bytes: Long, length: usize, expected: [u8; 3], d: Description) -> Tally {
    let less = length.wrapping_sub(1);
    let more = length.wrapping_add(1);
    let mut tally = cut(before, bytes, less, expected[0], d);
    tally = cut(tally, bytes, length, expected[1], d);
    cut(tally, bytes, more, expected[2], d)
}

// 1,024 bytes and 1,025, of spaces, digits and brackets; a bracket too few and too many.
pub fn lengths(before: Tally) -> Tally {
    let d = Description::of(&[TRUE]);
    let mut tally = before.subject(8000);
    tally = around(tally, long(0, b' ', b"T", b' '), 1024, [0, 0, 12], d);
    tally = around(tally, long(1023, b' ', b"T", b' '), 1024, [11, 0, 12], d);
    tally = around(tally, long(1024, b' ', b"&", b' '), 1024, [11; 3], d);
    tally = around(tally, long(0, b' ', b"n1", b'0'), 1024, [12; 3], d);
    tally = around(tally, long(0, b' ', b"n0", b'0'), 1024, [11; 3], d);
    tally = around(tally, long(300, b'(', b"T", b')'), 601, [11, 0, 11], d);
    tally = around(tally, long(511, b'(', b" T", b')'), 1024, [11, 0, 11], d);
    around(tally, long(512, b'(', b"T", b')'), 1025, [11, 12, 11], d)
}

// 63 times "not" over a fact.
fn nots() -> Description {
    let mut d = Description::none().entry(fact(1));
    for i in 0..63 {
        d = d.entry(not(i));
    }
    d
}

// 64 entries and 65.
pub fn entries(before: Tally) -> Tally {
    let d = nots();
    let mut tally = before.subject(9000);
    tally = around(tally, long(63, b'!', b"n1", b' '), 65, [11, 0, 0], d);
    tally = around(tally, long(63, b'!', b"n1", b' '), 1024, [0, 0, 12], d);
    around(tally, long(64, b'!', b"n1", b' '), 66, [11, 12, 12], d)
}
