// Steps and drafts in letters.
use vectors::entries::{FALSE, TRUE, and, at_least, at_most, fact, not, or, pack};

// A number from 0 to 35 as a digit or a small letter; 255 for anything else.
pub fn number(letter: u8) -> u8 {
    match letter {
        b'0'..=b'9' => letter - b'0',
        b'a'..=b'z' => letter - b'a' + 10,
        _ => 255,
    }
}

// An entry, good at any place but the first two. `k` and `K` have kinds that there are not, `u` and `U` fields that their kinds do not
// use, `r` and `R` references upwards; `K` has all three faults, and `U` the last two.
pub fn entry(letter: u8) -> u32 {
    match letter {
        b'f' => FALSE,
        b'1'..=b'9' => fact(number(letter) as u32),
        b'n' => not(0),
        b'&' => and(0, 1),
        b'|' => or(1, 0),
        b'>' => at_least(2, 7, 0),
        b'<' => at_most(255, 255, 1),
        b'k' => pack(8, 0, 0, 0, 0),
        b'K' => pack(15, 255, 63, 63, 255),
        b'u' => pack(0, 1, 0, 0, 0),
        b'U' => pack(3, 255, 63, 0, 0),
        b'r' => not(63),
        b'R' => and(0, 63),
        _ => TRUE,
    }
}
