// What the promises of a successor come to: as wants at its world, and as the parts that are true or false there (known as
// its label).
ghost use Rattle.std.specs.Prelude.{length, ◌≡◌, true, false, ◌<◌};
ghost use Rattle.sets.specs.Set.{member};
ghost use Rattle.wide.specs.Wide.{wide_in};
ghost use Rattle.tableau.specs.Wants.{added_if};
ghost use Rattle.counting.specs.Question.{problem_of, asks};
ghost use Rattle.wants.specs.Outcome.{Asked};
ghost use Rattle.promises.specs.Promise.{AllIs, only_if, PartIs, Promising, PromisedIs, PartsOf};

use counting::question::{Question, asks};
use sets::Set;
use table::entry::Entry;
use wants::{Wants, want, with_if};
use wide::wide_at;

// The parts of promised needs, and of promised limits.
#[derive(Clone, Copy)]
pub struct Parts {
    pub yes: Set,
    pub no: Set,
}

// Wants entry e to be so, if that is asked.
fn want_if(entries: &[u64], e: usize, w: Wants, truth: bool, so: bool) -> Option<Wants>
    requires { Asked (wide_in entries.now) (length entries.now) e w }
    ensures { AllIs (wide_in entries.now) (length entries.now) (only_if so truth) e w result }
{
    if so {
        want(entries, e, w, truth)
    } else {
        Some(w)
    }
}

// Wants the part of entry i as a promise of it asks: true for a need, false for a limit.
fn want_part(entries: &[u64], q: Question, i: usize, v: Wants) -> Option<Wants>
    requires { Asked (wide_in entries.now) (length entries.now) (wide_in entries.now i).first v }
    ensures { PartIs (wide_in entries.now) (length entries.now) (asks q (wide_in entries.now i) i) i v result }
{
    let e = wide_at(entries, i);
    let first = e.first as usize;
    let need = asks(e, q, i, true);
    let limit = asks(e, q, i, false);
    let u = want_if(entries, first, v, true, need)?;
    want_if(entries, first, u, false, limit)
}

// What a successor that keeps the promises of a set has to be like. Not laid into its caller, which would take its room on the
// stack at every depth.
#[inline(never)]
pub fn promised(entries: &[u64], q: Question, promises: Set, depth: usize) -> Option<Wants>
    requires { Promising (problem_of entries.now q) (member promises) depth }
    ensures { PromisedIs (problem_of entries.now q) (member promises) depth result }
{
    let mut v = Wants::nothing();
    let mut rest = promises;
    while let Some(i) = rest.highest() {
        v = want_part(entries, q, i, v)?;
        rest = rest.without(i);
    }
    Some(v)
}

// The set with the part of entry i, if that is a need, or else a limit.
fn with_part(found: Set, e: Entry, q: Question, i: usize, need: bool) -> Set
    requires { e.first < 64 }
    ensures { member result ≡ added_if (asks q e i need) (member found) e.first }
{
    with_if(found, e.first as usize, asks(e, q, i, need))
}

// The parts that a successor has to make true, those of promised needs, and false, those of promised limits, to keep the
// promises of a set.
pub fn parts_of(entries: &[u64], q: Question, promises: Set, depth: usize) -> Parts
    requires { Promising (problem_of entries.now q) (member promises) depth }
    ensures { PartsOf (problem_of entries.now q) (member promises) true (member result.yes)
        × PartsOf (problem_of entries.now q) (member promises) false (member result.no) }
{
    let mut yes = Set::empty();
    let mut no = Set::empty();
    let mut rest = promises;
    while let Some(i) = rest.highest() {
        let e = wide_at(entries, i);
        yes = with_part(yes, e, q, i, true);
        no = with_part(no, e, q, i, false);
        rest = rest.without(i);
    }
    Parts { yes, no }
}
