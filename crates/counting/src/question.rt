// What is asked of the successors by one relation: which entries are needs, which are limits, and what they ask for.
ghost use Rattle.std.specs.Prelude.{◌≡◌, true, false, ℕ, ◌<◌, ◌≤◌, eqb, length};
ghost use Rattle.sets.specs.Set.{member};
ghost use Rattle.tableau.specs.Wants.{wanted};
ghost use Rattle.tableau.specs.Counting.{bound, lo, hi};
ghost use Rattle.tableau.specs.Search.{asking};
ghost use Rattle.counting.specs.Question.{problem_of, asks, bound_of, Small, Those, OnlyAsked, Exceeds, NoNeed, Closed};

use sets::Set;
use table::entry::Entry;
use table::kind::Kind;
use wide::wide_at;

// The entries wanted true and those wanted false, and the relation whose successors are counted.
#[derive(Clone, Copy)]
pub struct Question {
    pub yes: Set,
    pub no: Set,
    pub relation: u32,
}

// The entries wanted to be so.
fn wanted(q: Question, truth: bool) -> Set
    ensures { member result ≡ wanted (member q.yes) (member q.no) truth }
{
    if truth { q.yes } else { q.no }
}

// Whether entry i, with these fields, is a need, or else a limit. At least is a need where it is wanted true, at most where it is wanted false.
fn is_bound(e: Entry, q: Question, i: usize, need: bool) -> bool
    ensures { result ≡ bound (member q.yes) (member q.no) e i need }
{
    match Kind::of(e.kind) {
        Some(Kind::AtLeast) => wanted(q, need).contains(i),
        Some(Kind::AtMost) => wanted(q, !need).contains(i),
        Some(Kind::True | Kind::False | Kind::Fact | Kind::Not | Kind::And | Kind::Or) | None =>
            false,
    }
}

// Whether it is one by the relation of the question.
pub fn asks(e: Entry, q: Question, i: usize, need: bool) -> bool
    ensures { result ≡ asks q e i need }
{
    e.name == q.relation && is_bound(e, q, i, need)
}

// Whether an entry is "at least".
fn is_at_least(e: Entry) -> bool
    ensures { result ≡ eqb e.kind 6 }
{
    matches!(Kind::of(e.kind), Some(Kind::AtLeast))
}

// How many successors a need asks for: not at most so many is one more.
fn least(e: Entry) -> u64
    ensures { result ≡ lo e }
{
    let grade = e.grade as u64;
    if is_at_least(e) { grade } else { grade + 1 }
}

// How many successors a limit allows: not at least so many is one less.
fn most(e: Entry) -> u64
    ensures { result ≡ hi e }
{
    let grade = e.grade as u64;
    if is_at_least(e) {
        grade.saturating_sub(1)
    } else {
        grade
    }
}

// How many successors an entry asks for as a need, or else allows as a limit.
pub fn bound(e: Entry, need: bool) -> u64
    ensures { result ≡ bound_of need e }
{
    if need { least(e) } else { most(e) }
}

// Whether entry i is a need, and entry j a limit that allows fewer.
pub fn exceeds(entries: &[u64], q: Question, i: usize, j: usize) -> bool
    requires { (i < length entries.now) × (j < length entries.now) }
    ensures { result ≡ true → Exceeds (problem_of entries.now q) i j }
{
    let need = wide_at(entries, i);
    let limit = wide_at(entries, j);
    asks(need, q, i, true) && asks(limit, q, j, false) && most(limit) < least(need)
}

// The numbers below n that pass a test.
pub fn those<F: Fn(usize) -> bool>(n: usize, passes: F) -> Set
    requires few { n ≤ 64 }
    requires callable { (i : ℕ) → i < n → F.pre passes i }
    ensures { Those n (F.post passes) (member result) }
{
    let mut found = Set::empty();
    for i in 0..n {
        if passes(i) {
            found = found.with(i);
        }
    }
    found
}

// All the needs and limits.
pub fn asking(entries: &[u64], q: Question) -> Set
    requires { Small (problem_of entries.now q) }
    ensures { member result ≡ asking (problem_of entries.now q) }
{
    those(entries.len(), |i| {
        let e = wide_at(entries, i);
        asks(e, q, i, true) || asks(e, q, i, false)
    })
}

// The needs of the question, or else its limits.
pub fn asked(entries: &[u64], q: Question, need: bool) -> Set
    requires { length entries.now ≤ 64 }
    ensures { OnlyAsked (problem_of entries.now q) need (member result) }
{
    those(entries.len(), |i| asks(wide_at(entries, i), q, i, need))
}

// Whether a need is in the set.
pub fn has_need(entries: &[u64], q: Question, set: Set) -> bool
    ensures { result ≡ false → NoNeed (problem_of entries.now q) set (λ j. j < length entries.now) }
{
    (0..entries.len()).any(|i| set.contains(i) && asks(wide_at(entries, i), q, i, true))
}

// The limits that allow none.
pub fn closed(entries: &[u64], q: Question) -> Set
    requires { Small (problem_of entries.now q) }
    ensures { (i : ℕ) → member result i ≡ true → Closed (problem_of entries.now q) i }
{
    those(entries.len(), |i| {
        let e = wide_at(entries, i);
        asks(e, q, i, false) && most(e) == 0
    })
}
