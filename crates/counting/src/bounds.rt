// What the slots leave unmet, what room they leave, and how many copies of a set are of use.
ghost use Rattle.std.specs.Prelude.{◌≡◌, false, ◌<◌, ◌≤◌, length};
ghost use Rattle.sets.specs.Set.{member, code};
ghost use Rattle.semantics.specs.Answer.{Answers};
ghost use Rattle.tableau.specs.Search.{asking, Met, Kept, Useful};
ghost use Rattle.counting.specs.Question.{problem_of};
ghost use Rattle.counting.specs.Stack.{slots_of, Few};
ghost use Rattle.counting.specs.Bounds.{left_of, unasked, tighter, Left};

use crate::question::Question;
use crate::{question, stack};
use sets::Set;
use table::entry::Entry;
use wide::wide_at;

// What an entry lacks behind k slots as a need, or else the room under it as a limit.
pub fn left(e: Entry, words: &[u64], k: usize, i: usize, need: bool) -> u64
    requires { Few words.now k }
    ensures { result ≡ left_of need e i (slots_of words.now k) }
{
    question::bound(e, need).saturating_sub(stack::tally(words, k, i, need))
}

// Where nothing is asked, needs lack nothing, and limits have room for all that any need asks for.
fn unasked(need: bool) -> u64
    ensures { result ≡ unasked need }
{
    if need { 0 } else { 4096 }
}

// The greater of two lacks, or else the smaller of two rooms.
fn tighter(a: u64, b: u64, need: bool) -> u64
    ensures { result ≡ tighter need a b }
{
    if need { a.max(b) } else { a.min(b) }
}

// What entry i lacks, if it is a need in the set b, or else the room under it, if it is a limit outside b.
fn left_at(
    entries: &[u64],
    q: Question,
    b: Set,
    words: &[u64],
    k: usize,
    i: usize,
    need: bool,
) -> u64
    requires { (i < length entries.now) × Few words.now k × (need ≡ false → Kept (problem_of entries.now q) (slots_of words.now k)) }
    ensures { Left (problem_of entries.now q) (slots_of words.now k) (code b) need (λ j. j ≡ i) result }
{
    if !stack::counts(b.contains(i), need) {
        return unasked(need);
    }
    let e = wide_at(entries, i);
    if !question::asks(e, q, i, need) {
        return unasked(need);
    }
    left(e, words, k, i, need)
}

// The most that any need in the set b lacks, or else the least room under the limits outside b.
fn tightest(entries: &[u64], q: Question, b: Set, words: &[u64], k: usize, need: bool) -> u64
    requires { Few words.now k × (need ≡ false → Kept (problem_of entries.now q) (slots_of words.now k)) }
    ensures { Left (problem_of entries.now q) (slots_of words.now k) (code b) need
        (λ j. j < length entries.now) result }
{
    let n = entries.len();
    let mut found = unasked(need);
    for i in 0..n {
        found = tighter(found, left_at(entries, q, b, words, k, i, need), need);
    }
    found
}

// How many copies of the set b to try first: as many as it lacks, if there is room for so many.
pub fn useful(entries: &[u64], q: Question, b: Set, words: &[u64], k: usize) -> u64
    requires { Few words.now k × Kept (problem_of entries.now q) (slots_of words.now k) }
    ensures { Useful (problem_of entries.now q) (slots_of words.now k) (code b) result }
{
    let lack = tightest(entries, q, b, words, k, true);
    if lack == 0 {
        return 0;
    }
    lack.min(tightest(entries, q, b, words, k, false))
}

// Whether every need is met; `all` are the needs and limits.
pub fn met(entries: &[u64], q: Question, all: Set, words: &[u64], k: usize) -> bool
    requires { Few words.now k × (member all ≡ asking (problem_of entries.now q)) }
    ensures { Answers result (Met (problem_of entries.now q) (slots_of words.now k)) }
{
    tightest(entries, q, all, words, k, true) == 0
}

// The needs that lack something, or else the limits that leave no room. Nothing is promised of them: they only say what to
// try first.
fn pressing(entries: &[u64], q: Question, words: &[u64], k: usize, need: bool) -> Set
    requires { (length entries.now ≤ 64) × Few words.now k }
{
    question::those(entries.len(), |i| {
        let e = wide_at(entries, i);
        question::asks(e, q, i, need) && need == (0 < left(e, words, k, i, need))
    })
}

// The needs that lack something.
pub fn unmet(entries: &[u64], q: Question, words: &[u64], k: usize) -> Set
    requires { (length entries.now ≤ 64) × Few words.now k }
{
    pressing(entries, q, words, k, true)
}

// The limits that leave no room.
pub fn used_up(entries: &[u64], q: Question, words: &[u64], k: usize) -> Set
    requires { (length entries.now ≤ 64) × Few words.now k }
{
    pressing(entries, q, words, k, false)
}
