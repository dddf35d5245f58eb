// Facts, and what "not", "and" and "or" make of them.
use crate::case::answers;
use crate::records::Records;
use crate::rows::Rows;
use vectors::entries::{FALSE, TRUE, and, at_least, fact, not, or};
use vectors::tally::Tally;

// Four worlds: fact 1 at worlds 0 and 1, fact 2 at worlds 0 and 2, so that each world has its own pair of answers.
fn four_worlds() -> Records {
    Records::of(4).fact(0, 1).fact(1, 1).fact(0, 2).fact(2, 2)
}

// Entries 0 to 4 are true, false, facts 1 and 2, and a fact that no record states.
fn parts() -> Rows {
    Rows::none()
        .entry(TRUE, 15)
        .entry(FALSE, 0)
        .entry(fact(1), 3)
        .entry(fact(2), 5)
        .entry(fact(3), 0)
}

fn negations() -> Rows {
    let rows = parts()
        .entry(not(0), 0)
        .entry(not(1), 15)
        .entry(not(2), 12)
        .entry(not(3), 10)
        .entry(not(4), 15);
    // Twice not.
    rows.entry(not(7), 3).entry(not(8), 5)
}

fn conjunctions() -> Rows {
    let rows = parts()
        .entry(and(2, 3), 1)
        .entry(and(3, 2), 1)
        .entry(and(2, 2), 3);
    rows.entry(and(0, 2), 3)
        .entry(and(3, 0), 5)
        .entry(and(1, 2), 0)
        .entry(and(3, 1), 0)
        .entry(and(4, 2), 0)
}

fn disjunctions() -> Rows {
    let rows = parts()
        .entry(or(2, 3), 7)
        .entry(or(3, 2), 7)
        .entry(or(2, 2), 3);
    rows.entry(or(0, 2), 15)
        .entry(or(3, 0), 15)
        .entry(or(1, 2), 3)
        .entry(or(3, 1), 5)
        .entry(or(4, 2), 3)
}

// Exactly one of two facts; then the same by other means.
fn mixed() -> Rows {
    let rows = parts()
        .entry(not(2), 12)
        .entry(not(3), 10)
        .entry(and(2, 6), 2)
        .entry(and(3, 5), 4);
    rows.entry(or(7, 8), 6)
        .entry(or(2, 3), 7)
        .entry(and(2, 3), 1)
        .entry(not(11), 14)
        .entry(and(10, 12), 6)
}

pub fn kinds(before: Tally) -> Tally {
    let mut tally = before.subject(9000);
    tally = answers(tally, negations(), four_worlds());
    tally = answers(tally, conjunctions(), four_worlds());
    tally = answers(tally, disjunctions(), four_worlds());
    tally = answers(tally, mixed(), four_worlds());
    // The same facts stated again change nothing.
    answers(
        tally,
        mixed(),
        four_worlds().fact(0, 1).fact(2, 2).fact(0, 1),
    )
}

// Names and relations 0 and 255 are ordinary, and a name is not a relation.
pub fn names(before: Tally) -> Tally {
    let records = Records::of(2)
        .fact(0, 0)
        .fact(1, 255)
        .link(0, 0, 1)
        .link(1, 255, 0);
    let mut rows = Rows::none()
        .entry(TRUE, 3)
        .entry(fact(0), 1)
        .entry(fact(255), 2)
        .entry(fact(127), 0);
    rows = rows
        .entry(at_least(1, 0, 0), 1)
        .entry(at_least(1, 255, 0), 2)
        .entry(at_least(1, 127, 0), 0);
    rows = rows.entry(at_least(1, 0, 1), 0).entry(at_least(1, 0, 2), 1);
    rows = rows
        .entry(at_least(1, 255, 1), 2)
        .entry(at_least(1, 255, 2), 0);
    let mut tally = answers(before.subject(10000), rows, records);
    // A fact 5 and no link, then links by 5 and no fact.
    rows = Rows::none()
        .entry(TRUE, 3)
        .entry(fact(5), 1)
        .entry(at_least(1, 5, 0), 0);
    tally = answers(tally, rows, Records::of(2).fact(0, 5));
    rows = Rows::none()
        .entry(TRUE, 3)
        .entry(fact(5), 0)
        .entry(at_least(1, 5, 0), 1);
    tally = answers(tally, rows, Records::of(2).link(0, 5, 0));
    rows = Rows::none()
        .entry(TRUE, 3)
        .entry(fact(5), 0)
        .entry(at_least(1, 5, 0), 2);
    answers(tally, rows, Records::of(2).link(1, 5, 0))
}
