// Which of several faults counts.
use crate::case::{one, two};
use vectors::entries::pack;
use vectors::tally::Tally;

// A wrong length goes before every fault of an entry.
pub fn length_first(before: Tally) -> Tally {
    let mut tally = before.subject(7000);
    // Kind 8 in an entry that is cut short, or has a byte too many behind it.
    tally = one(tally, 3, 0, pack(8, 0, 0, 0, 0), 1);
    tally = one(tally, 5, 0, pack(8, 0, 0, 0, 0), 1);
    tally = one(tally, 5, 1, pack(8, 0, 0, 0, 0), 1);
    // An unused field.
    tally = one(tally, 6, 0, pack(0, 0, 0, 0, 1), 1);
    // A reference.
    tally = one(tally, 7, 0, pack(3, 0, 0, 0, 0), 1);
    // In 65 entries: each fault in the first, and in the one too many.
    tally = one(tally, 260, 0, pack(8, 0, 0, 0, 0), 1);
    tally = one(tally, 260, 0, pack(0, 0, 0, 0, 1), 1);
    tally = one(tally, 260, 0, pack(3, 0, 0, 0, 0), 1);
    tally = one(tally, 260, 64, pack(15, 255, 63, 63, 255), 1);
    // No byte, so no entry.
    tally = one(tally, 0, 0, pack(8, 0, 0, 0, 0), 1);
    // A fault behind the end is none.
    tally = one(tally, 4, 1, pack(8, 0, 0, 0, 0), 0);
    one(tally, 256, 64, pack(8, 0, 0, 0, 0), 0)
}

// In one entry the order is 2, 3, 4.
pub fn within_entry(before: Tally) -> Tally {
    let mut tally = before.subject(8000);
    // 2 and whatever else stands in the entry.
    tally = one(tally, 4, 0, pack(8, 0, 0, 0, 1), 2);
    tally = one(tally, 4, 0, pack(8, 255, 63, 63, 255), 2);
    tally = one(tally, 4, 0, pack(15, 255, 63, 63, 255), 2);
    tally = one(tally, 256, 63, pack(9, 0, 63, 0, 0), 2);
    // 3 and 4: an unused field, and the entry's own number as a reference.
    tally = one(tally, 4, 0, pack(3, 1, 0, 0, 0), 3);
    tally = one(tally, 4, 0, pack(3, 0, 0, 1, 0), 3);
    tally = one(tally, 24, 5, pack(3, 0, 5, 0, 1), 3);
    tally = one(tally, 24, 5, pack(4, 1, 5, 0, 0), 3);
    tally = one(tally, 24, 5, pack(5, 0, 0, 5, 1), 3);
    tally = one(tally, 24, 5, pack(6, 0, 5, 1, 0), 3);
    tally = one(tally, 24, 5, pack(7, 0, 63, 63, 0), 3);
    // 3 alone: an unused reference that would be too large if it were used.
    tally = one(tally, 24, 5, pack(2, 0, 63, 0, 0), 3);
    tally = one(tally, 24, 5, pack(3, 0, 4, 5, 0), 3);
    one(tally, 24, 5, pack(6, 0, 4, 63, 0), 3)
}

// Of two entries the earlier decides, whatever the numbers.
pub fn between_entries(before: Tally) -> Tally {
    let fine = pack(6, 7, 0, 0, 2);
    let unknown = pack(8, 0, 0, 0, 0);
    let stray = pack(0, 0, 0, 0, 1);
    let upward = pack(3, 0, 63, 0, 0);
    let mut tally = before.subject(9000);
    // The earlier is fine.
    tally = two(tally, fine, fine, 0);
    tally = two(tally, fine, unknown, 2);
    tally = two(tally, fine, stray, 3);
    tally = two(tally, fine, upward, 4);
    // The earlier has 2.
    tally = two(tally, unknown, fine, 2);
    tally = two(tally, unknown, stray, 2);
    tally = two(tally, unknown, upward, 2);
    // The earlier has 3.
    tally = two(tally, stray, fine, 3);
    tally = two(tally, stray, unknown, 3);
    tally = two(tally, stray, upward, 3);
    // The earlier has 4.
    tally = two(tally, upward, fine, 4);
    tally = two(tally, upward, unknown, 4);
    tally = two(tally, upward, stray, 4);
    // The later refers to the earlier, which is fine, or not.
    let not_entry_1 = pack(3, 0, 1, 0, 0);
    tally = two(tally, fine, not_entry_1, 0);
    two(tally, unknown, not_entry_1, 2)
}
