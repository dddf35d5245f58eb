// Texts that are read, and the entries that document 02, P1, makes of them.
use crate::case::{fills, reads};
use vectors::description::Description;
use vectors::entries::{FALSE, TRUE, and, at_least, at_most, fact, not, or};
use vectors::tally::Tally;

// One operand, with "not" and brackets.
pub fn single(before: Tally) -> Tally {
    let mut tally = before.subject(1000);
    tally = reads(tally, b"T", &[TRUE]);
    tally = reads(tally, b"F", &[FALSE]);
    tally = reads(tally, b"n12", &[fact(12)]);
    tally = reads(tally, b"n0", &[fact(0)]);
    tally = reads(tally, b"n100", &[fact(100)]);
    tally = reads(tally, b"n255", &[fact(255)]);
    tally = reads(tally, b"!T", &[TRUE, not(0)]);
    tally = reads(tally, b"!!n1", &[fact(1), not(0), not(1)]);
    tally = reads(tally, b"((T))", &[TRUE]);
    reads(tally, b" ! ( ( n7 ) ) ", &[fact(7), not(0)])
}

// "And" and "or": "and" binds closer, equal signs group leftwards, brackets go first.
pub fn grouped(before: Tally) -> Tally {
    let a = fact(1);
    let b = fact(2);
    let c = fact(3);
    let mut tally = before.subject(2000);
    tally = reads(tally, b"n1&n2", &[a, b, and(0, 1)]);
    tally = reads(tally, b"n1|n2", &[a, b, or(0, 1)]);
    tally = reads(tally, b"  n1  &  n2  ", &[a, b, and(0, 1)]);
    tally = reads(tally, b"n1&n2&n3", &[a, b, and(0, 1), c, and(2, 3)]);
    tally = reads(tally, b"n1|n2|n3", &[a, b, or(0, 1), c, or(2, 3)]);
    tally = reads(tally, b"n1|n2&n3", &[a, b, c, and(1, 2), or(0, 3)]);
    tally = reads(tally, b"n1&n2|n3", &[a, b, and(0, 1), c, or(2, 3)]);
    tally = reads(tally, b"!n1&n2", &[a, not(0), b, and(1, 2)]);
    tally = reads(tally, b"!n1|!n2", &[a, not(0), b, not(2), or(1, 3)]);
    tally = reads(tally, b"!(n1&n1)", &[a, a, and(0, 1), not(2)]);
    tally = reads(tally, b"(n1|n2)&n3", &[a, b, or(0, 1), c, and(2, 3)]);
    tally = reads(tally, b"n1&(n2&n3)", &[a, b, c, and(1, 2), and(0, 3)]);
    reads(tally, b"n1|(n2|n3)", &[a, b, c, or(1, 2), or(0, 3)])
}

// Counting pairs, over entry 0 or 1.
pub fn counted(before: Tally) -> Tally {
    let a = fact(1);
    let b = fact(2);
    let over_0 = at_least(2, 7, 0);
    let over_1 = at_least(2, 7, 1);
    let top = at_least(255, 255, 0);
    let mut tally = before.subject(3000);
    tally = reads(tally, b">=2r7n1", &[a, over_0]);
    tally = reads(tally, b">=2r7T", &[TRUE, over_0]);
    tally = reads(tally, b"  >=2  r7  n1  ", &[a, over_0]);
    tally = reads(tally, b"<=2 r7 n1", &[a, at_most(2, 7, 0)]);
    tally = reads(tally, b"<=0 r0 F", &[FALSE, at_most(0, 0, 0)]);
    tally = reads(tally, b">=255 r255 n255", &[fact(255), top]);
    tally = reads(tally, b">=2 r7 n1&n2", &[a, over_0, b, and(1, 2)]);
    tally = reads(tally, b"n1|>=2 r7 n2", &[a, b, over_1, or(0, 2)]);
    tally = reads(tally, b">=2 r7 (!n1)", &[a, not(0), over_1]);
    tally = reads(tally, b">=2r7<=1r8n1", &[a, at_most(1, 8, 0), over_1]);
    reads(tally, b"!>=2 r7 !n1", &[a, not(0), over_1, not(2)])
}

// All signs at once.
pub fn mixed(before: Tally) -> Tally {
    let text = b"!(n1 | >=2 r7 (n2&!n3)) & <=0r0 T | F&n255";
    let mut d = Description::of(&[fact(1), fact(2), fact(3), not(2)]);
    d = d.entry(and(1, 3)).entry(at_least(2, 7, 4));
    d = d.entry(or(0, 5)).entry(not(6));
    d = d.entry(TRUE).entry(at_most(0, 0, 8)).entry(and(7, 9));
    d = d.entry(FALSE).entry(fact(255)).entry(and(11, 12));
    fills(before.subject(4000), text, d.entry(or(10, 13)))
}
