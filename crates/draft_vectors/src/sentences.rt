// The sentences of document 02, P9, and its limits.
use crate::case::{ends, from, gives, run};
use crate::letters::entry;
use history::Draft;
use vectors::tally::Tally;

// "A fresh draft is empty with no name saved." Entries are added in their order.
pub fn composed(before: Tally) -> Tally {
    let mut tally = before.subject(1000);
    tally = ends(tally, b"", b"", b"");
    tally = ends(tally, b"+t0 ", b"t", b"");
    ends(
        tally,
        b"+10 +20 +&0 +|0 +n0 +>0 +<0 +f0 +t0 ",
        b"12&|n><ft",
        b"",
    )
}

// "Coming back restores exactly the saved entries, clears the bytes behind them"; "An empty draft may be saved"; "Saving to a used name
// replaces it."
pub fn saved(before: Tally) -> Tally {
    let mut tally = before.subject(2000);
    tally = ends(tally, b"+10 S30 +20 +&0 B30 ", b"1", b"...1");
    tally = ends(tally, b"+10 S30 +20 +&0 B30 +f0 +30 ", b"1f3", b"...1");
    tally = ends(tally, b"S00 +10 B00 ", b"", b"0");
    tally = ends(tally, b"S00 Sf0 B00 Bf0 ", b"", b"0..............0");
    tally = ends(tally, b"+10 S30 +20 S30 +30 B30 ", b"12", b"...2");
    tally = ends(tally, b"+10 S30 B30 B30 ", b"1", b"...1");
    // Saved with more, come back to less, saved again with other entries.
    tally = ends(
        tally,
        b"S00 +10 +20 S30 B00 +40 S30 +50 B30 ",
        b"4",
        b"0..1",
    );
    ends(tally, b"+10 Sf0 +20 S00 Bf0 ", b"1", b"...............1")
}

// "forgets names saved with more entries": those with fewer or as many stay, and what is forgotten stays so.
pub fn forgotten(before: Tally) -> Tally {
    let mut tally = before.subject(3000);
    tally = ends(tally, b"+10 S10 +20 S20 +30 S30 B20 ", b"12", b".12");
    tally = ends(
        tally,
        b"+10 S10 +20 S20 +30 S30 B20 B3g +30 B3g ",
        b"123",
        b".12",
    );
    tally = ends(
        tally,
        b"+10 S10 +20 S20 +30 S30 B10 B2g B3g B10 ",
        b"1",
        b".1",
    );
    tally = ends(tally, b"+10 S40 S50 +20 B40 B50 ", b"1", b"....11");
    tally = ends(tally, b"S00 +10 S10 B00 B1g +10 B1g S10 B10 ", b"1", b"01");
    ends(tally, b"+10 +20 S10 S20 S00 B20 ", b"12", b"222")
}

// "a bad entry gives 2, 3 or 4"; 16 for "a name over 15 or, when coming back, one not saved".
pub fn refused(before: Tally) -> Tally {
    let mut tally = before.subject(4000);
    tally = ends(tally, b"+k2 +K2 +u3 +U3 +r4 +R4 +n4 +&4 ", b"", b"");
    tally = ends(tally, b"+10 +&4 +n0 +&0 +|0 ", b"1n&|", b"");
    tally = ends(tally, b"+10 S00 +k2 +u3 +r4 B00 ", b"1", b"1");
    tally = ends(tally, b"Sgg Szg S.g Bgg Bzg B.g ", b"", b"");
    ends(
        tally,
        b"+10 B0g Bfg Sf0 B0g Bf0 Beg ",
        b"1",
        b"...............1",
    )
}

// A draft with so many facts more.
fn facts(start: Draft, n: usize) -> Draft {
    let mut draft = start;
    for _ in 0..n {
        draft = hurnavis::draft_add(draft, entry(b'1')).draft;
    }
    draft
}

// "Adding a 65th entry gives 1", whatever the entry is; coming back makes room.
pub fn full(before: Tally) -> Tally {
    let first = run(before.subject(5000), b"+10 S00 ");
    let most = from(
        first.tally,
        facts(first.draft, 62),
        b"+r4 +20 +11 +t1 +k1 +K1 Sf0 Bf0 ",
    );
    let tally = most.tally.case(most.draft.count as u64, 64);
    // 16 comes before 1.
    let mut wrong = most.draft;
    wrong.saved[5] = 65;
    let refused = from(tally, wrong, b"+1g +Kg Bfg ");
    let back = from(refused.tally, most.draft, b"+11 B00 Bfg +20 ");
    gives(back, b"12", b"1")
}
