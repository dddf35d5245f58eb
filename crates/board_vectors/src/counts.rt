// Counting: at least and at most, over links that repeat, lead back, and belong to two relations.
use crate::case::answers;
use crate::records::Records;
use crate::rows::Rows;
use vectors::entries::{FALSE, TRUE, and, at_least, at_most, fact, not};
use vectors::tally::Tally;

// Four worlds. By 7, world 0 leads to 1, 2 and 3, world 1 to 0 and itself, world 2 to 3, world 3 nowhere. By 8, world 0
// leads to itself, world 3 to 0 and 1. Fact 1 holds at 1 and 3, fact 2 at 0.
fn linked() -> Records {
    let by_7 = Records::of(4)
        .link(0, 7, 1)
        .link(0, 7, 2)
        .link(0, 7, 3)
        .link(1, 7, 0)
        .link(1, 7, 1)
        .link(2, 7, 3);
    by_7.link(0, 8, 0)
        .link(3, 8, 0)
        .link(3, 8, 1)
        .fact(1, 1)
        .fact(3, 1)
        .fact(0, 2)
}

fn parts() -> Rows {
    Rows::none()
        .entry(TRUE, 15)
        .entry(FALSE, 0)
        .entry(fact(1), 10)
        .entry(fact(2), 1)
}

// By 7 the worlds 0 to 3 lead to 3, 2, 1 and 0 worlds.
fn all_grades() -> Rows {
    let least = parts()
        .entry(at_least(0, 7, 0), 15)
        .entry(at_least(1, 7, 0), 7)
        .entry(at_least(2, 7, 0), 3);
    let rows = least
        .entry(at_least(3, 7, 0), 1)
        .entry(at_least(4, 7, 0), 0)
        .entry(at_least(255, 7, 0), 0);
    let most = rows
        .entry(at_most(0, 7, 0), 8)
        .entry(at_most(1, 7, 0), 12)
        .entry(at_most(2, 7, 0), 14);
    most.entry(at_most(3, 7, 0), 15)
        .entry(at_most(4, 7, 0), 15)
        .entry(at_most(255, 7, 0), 15)
}

// To no world where "false" holds.
fn of_false() -> Rows {
    let least = parts()
        .entry(at_least(0, 7, 1), 15)
        .entry(at_least(1, 7, 1), 0)
        .entry(at_least(255, 7, 1), 0);
    least
        .entry(at_most(0, 7, 1), 15)
        .entry(at_most(1, 7, 1), 15)
        .entry(at_most(255, 7, 1), 15)
}

// By 7 the worlds 0 to 3 lead to 2, 1, 1 and 0 worlds of fact 1, and to 0, 1, 0 and 0 of fact 2.
fn of_facts() -> Rows {
    let least = parts()
        .entry(at_least(0, 7, 2), 15)
        .entry(at_least(1, 7, 2), 7)
        .entry(at_least(2, 7, 2), 1);
    let rows = least
        .entry(at_least(3, 7, 2), 0)
        .entry(at_least(1, 7, 3), 2)
        .entry(at_least(2, 7, 3), 0);
    let most = rows
        .entry(at_most(0, 7, 2), 8)
        .entry(at_most(1, 7, 2), 14)
        .entry(at_most(2, 7, 2), 15);
    most.entry(at_most(0, 7, 3), 13).entry(at_most(1, 7, 3), 15)
}

pub fn grades(before: Tally) -> Tally {
    let mut tally = before.subject(11000);
    tally = answers(tally, all_grades(), linked());
    tally = answers(tally, of_false(), linked());
    answers(tally, of_facts(), linked())
}

// By 8 the worlds 0 to 3 lead to 1, 0, 0 and 2 worlds, to 0, 0, 0 and 1 of fact 1, and to 1, 0, 0 and 1 of fact 2.
fn by_8() -> Rows {
    let least = parts()
        .entry(at_least(1, 8, 0), 9)
        .entry(at_least(2, 8, 0), 8)
        .entry(at_least(3, 8, 0), 0);
    let rows = least
        .entry(at_least(1, 8, 2), 8)
        .entry(at_least(1, 8, 3), 9)
        .entry(at_least(2, 8, 3), 0);
    let most = rows
        .entry(at_most(0, 8, 0), 6)
        .entry(at_most(1, 8, 0), 7)
        .entry(at_most(2, 8, 0), 15);
    most.entry(at_most(0, 8, 2), 7).entry(at_most(0, 8, 3), 6)
}

// By 9 nothing leads anywhere.
fn by_9() -> Rows {
    let least = parts()
        .entry(at_least(0, 9, 0), 15)
        .entry(at_least(1, 9, 0), 0)
        .entry(at_least(255, 9, 0), 0);
    least
        .entry(at_most(0, 9, 0), 15)
        .entry(at_most(255, 9, 0), 15)
}

pub fn relations(before: Tally) -> Tally {
    let mut tally = before.subject(12000);
    tally = answers(tally, by_8(), linked());
    tally = answers(tally, by_9(), linked());
    // The same pair by both relations is counted by each.
    let rows = Rows::none()
        .entry(TRUE, 3)
        .entry(at_least(1, 7, 0), 1)
        .entry(at_least(1, 8, 0), 1);
    tally = answers(
        tally,
        rows.entry(at_least(2, 7, 0), 0),
        Records::of(2).link(0, 7, 1).link(0, 8, 1),
    );
    // By one of them only.
    let one = Rows::none()
        .entry(TRUE, 3)
        .entry(at_least(1, 7, 0), 1)
        .entry(at_least(1, 8, 0), 2);
    answers(
        tally,
        one.entry(at_most(0, 7, 0), 2).entry(at_most(0, 8, 0), 1),
        Records::of(2).link(0, 7, 1).link(1, 8, 1),
    )
}

// Links that are stated again, side by side and far apart, are the same links.
pub fn repeated(before: Tally) -> Tally {
    let again = linked()
        .link(0, 7, 1)
        .link(0, 7, 1)
        .link(2, 7, 3)
        .link(1, 7, 1)
        .link(3, 8, 1)
        .link(0, 7, 1);
    let mut tally = before.subject(13000);
    tally = answers(tally, all_grades(), again);
    tally = answers(tally, of_facts(), again);
    tally = answers(tally, by_8(), again);
    // World 0 leads to itself, twice stated: to one world.
    let rows = Rows::none()
        .entry(TRUE, 1)
        .entry(at_least(1, 7, 0), 1)
        .entry(at_least(2, 7, 0), 0);
    answers(
        tally,
        rows.entry(at_most(1, 7, 0), 1),
        Records::of(1).link(0, 7, 0).link(0, 7, 0),
    )
}

// Entry 4: worlds 0 and 1, which lead to two worlds or more by 7. Entry 7: world 3, which leads nowhere by 7.
pub fn nested(before: Tally) -> Tally {
    let mut rows = parts().entry(at_least(2, 7, 0), 3);
    rows = rows.entry(at_least(1, 7, 4), 3).entry(at_least(2, 7, 4), 2);
    rows = rows.entry(at_most(0, 7, 0), 8);
    rows = rows
        .entry(at_least(1, 7, 7), 5)
        .entry(at_most(0, 8, 7), 15)
        .entry(at_most(0, 7, 7), 10);
    // Fact 1 and not entry 7: world 1; by 7 the worlds 0 and 1 lead there, by 8 world 3.
    rows = rows.entry(not(7), 7).entry(and(2, 11), 2);
    rows = rows
        .entry(at_least(1, 7, 12), 3)
        .entry(at_least(1, 8, 12), 8)
        .entry(at_most(0, 7, 12), 12);
    answers(before.subject(14000), rows, linked())
}
