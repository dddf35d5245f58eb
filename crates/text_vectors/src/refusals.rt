// Texts that are refused: 11 outside the grammar, then 12 over a limit, both before 10 for the lent bytes.
use crate::case::refuses;
use vectors::tally::Tally;

// Texts with a `;` between each two, all refused with this number.
fn each(before: Tally, list: &[u8], expected: u8) -> Tally {
    let mut tally = before;
    for text in list.split(|byte| *byte == b';') {
        tally = refuses(tally, text, expected);
    }
    tally
}

pub fn outside(before: Tally) -> Tally {
    let mut tally = before.subject(5000);
    // No text, and numbers.
    tally = each(tally, b";   ;n;n01;n00;n 12;n1 2;n-1;n1.;nT;12;r7", 11);
    // Counting pairs.
    tally = each(tally, b">=2;>=2 n1;>=2 r7;>=2 (r7 T);>=2 !r7 T", 11);
    tally = each(tally, b">= 2 r7 T;> =2 r7 T;>=2 r 7 T;>=02 r7 T", 11);
    tally = each(tally, b">2 r7 T;=2 r7 T;=>2 r7 T;>=2 r07 T;<=r7 T", 11);
    // Operands and signs.
    tally = each(tally, b"r7 T;T F;TF;n1n2;T&;&T;T||F;T&|F;!;T!;T!F", 11);
    tally = each(tally, b"t;N1;\tT;T\t;\nT;T\n;\0T;T\0;\xffT;T\xff", 11);
    // Brackets.
    tally = each(tally, b"();(T;T);(T));((T);)T(;(T|)F;T(F);(T)n1", 11);
    // Also over a limit.
    each(tally, b"n256&;n256 T;n0256;n256&n01;(n256;>=256 r7", 11)
}

// A number over 255, also where 8, 32 or 64 bits would take it for 0.
pub fn over(before: Tally) -> Tally {
    let mut tally = before.subject(6000);
    tally = each(tally, b"n256;n300;n1000;n1&n256;n256|n1", 12);
    tally = each(tally, b">=256 r7 T;<=256 r7 T;>=2 r256 T", 12);
    tally = each(tally, b"n4294967296;n18446744073709551616", 12);
    each(tally, b"n99999999999999999999999999", 12)
}

// Each byte alone and behind an operand, but for those that are operands themselves or spaces.
pub fn bytes(before: Tally) -> Tally {
    let mut tally = before.subject(7000);
    for byte in 0..=255 {
        if byte != b'T' && byte != b'F' && byte != b' ' {
            tally = refuses(tally, &[byte], 11);
            tally = refuses(tally, &[b'T', byte], 11);
        }
    }
    tally
}
