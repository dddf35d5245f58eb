// A question to the linear relaxation of what is left of a search: do weights refute it, do whole copies solve it, or else,
// which set is the one to branch on? It works in the words behind the list, and what it finds is checked.
#![tactic(auto)]

ghost use Rattle.std.specs.Prelude.{◌≡◌, true, ◌+◌, ◌<◌, ◌≤◌, length};
ghost use Rattle.counting.specs.Question.{problem_of};
ghost use Rattle.counting.specs.Stack.{slots_of};
ghost use Rattle.listed.specs.Codes.{codes_from};
ghost use Rattle.relaxing.specs.Relaxing.{Relaxing, Scratch, SameBelow, RelaxedIs, Seen};

use copies::completes;
use counting::question::Question;
use counting::{bounds, question};
use sets::Set;
use simplex::Verdict;
use weights::refutes;
use wide::wide_at;

#[derive(Clone, Copy)]
pub enum Relaxed {
    // Copies of the listed sets do not complete the slots.
    Refuted,
    // They do.
    Solved,
    // Nothing was seen. This set of the list is the one to branch on, with so many copies first.
    Unknown(usize, u64),
}

// Nothing was seen, and nothing speaks for a set or a number of copies.
const UNSEEN: Relaxed = Relaxed::Unknown(0, 65536);

// The entries with a bound that was laid out.
#[derive(Clone, Copy)]
struct Bounds {
    needs: Set,
    limits: Set,
}

impl Bounds {
    // With entry i among the needs, if it lacks anything.
    fn with_need(self, i: usize, lack: u64) -> Bounds
        requires { i < 64 }
    {
        if lack == 0 {
            return self;
        }
        Bounds {
            needs: self.needs.with(i),
            ..self
        }
    }

    // With entry i among the limits.
    fn with_limit(self, i: usize) -> Bounds
        requires { i < 64 }
    {
        Bounds {
            limits: self.limits.with(i),
            ..self
        }
    }
}

// Lays out what entry i lacks behind the slots as a need, or else the room under it as a limit, and tells it.
fn lay_left(
    entries: &[u64],
    words: &mut [u64],
    slots: usize,
    end: usize,
    i: usize,
    need: bool,
) -> u64
    requires { Scratch words.old slots end × (i < 64) }
    ensures { SameBelow end words.old words.new }
{
    let left = bounds::left(wide_at(entries, i), words, slots, i, need);
    words[end + i] = left;
    left
}

// The same, for what entry i is of the question.
fn lay_entry(
    entries: &[u64],
    q: Question,
    words: &mut [u64],
    slots: usize,
    end: usize,
    i: usize,
    found: Bounds,
) -> Bounds
    requires { Scratch words.old slots end × (i < 64) }
    ensures { SameBelow end words.old words.new }
{
    let e = wide_at(entries, i);
    if question::asks(e, q, i, true) {
        let lack = lay_left(entries, words, slots, end, i, true);
        return found.with_need(i, lack);
    }
    if question::asks(e, q, i, false) {
        lay_left(entries, words, slots, end, i, false);
        return found.with_limit(i);
    }
    found
}

// Lays out what the needs lack and the room under the limits, from the list's end on.
fn lay_bounds(entries: &[u64], q: Question, words: &mut [u64], slots: usize, end: usize) -> Bounds
    requires { Scratch words.old slots end × (length entries.now ≤ 64) }
    ensures { SameBelow end words.old words.new }
{
    let mut found = Bounds {
        needs: Set::empty(),
        limits: Set::empty(),
    };
    for i in 0..entries.len() {
        found = lay_entry(entries, q, words, slots, end, i, found);
    }
    found
}

// Refuted, if the weights are seen to refute.
fn by_weights(
    entries: &[u64],
    q: Question,
    words: &[u64],
    at: usize,
    k: usize,
    slots: usize,
    r: u64,
) -> Relaxed
    requires { Relaxing (problem_of entries.now q) words.now at k slots × (at + k + 64 ≤ length words.now) }
    ensures { RelaxedIs (problem_of entries.now q) (slots_of words.now slots) (codes_from words.now at k) result }
{
    if refutes(entries, q, words, at, k, slots, at + k, r) {
        Relaxed::Refuted
    } else {
        UNSEEN
    }
}

// Solved, if the copies are seen to solve it.
fn by_copies(
    entries: &[u64],
    q: Question,
    words: &[u64],
    at: usize,
    k: usize,
    slots: usize,
) -> Relaxed
    requires { Relaxing (problem_of entries.now q) words.now at k slots × (at + k + 64 + k < length words.now) }
    ensures { RelaxedIs (problem_of entries.now q) (slots_of words.now slots) (codes_from words.now at k) result }
{
    if completes(entries, q, words, at, k, slots, at + k + 64) {
        Relaxed::Solved
    } else {
        UNSEEN
    }
}

// What the relaxation finds for the slots and the k sets from a place on, with bounds and codes laid out behind those.
fn found(
    entries: &[u64],
    q: Question,
    words: &mut [u64],
    at: usize,
    k: usize,
    slots: usize,
) -> Verdict
    requires { Relaxing (problem_of entries.now q) words.old at k slots × (at + k + 64 + k < length words.old) }
    ensures { SameBelow (at + k) words.old words.new }
{
    let end = at + k;
    let bounds = lay_bounds(entries, q, words, slots, end);
    words.copy_within(at..end, end + 64);
    simplex::relax(&mut words[end..], bounds.needs, bounds.limits, k)
}

// What that is worth: it is checked.
fn checked(
    entries: &[u64],
    q: Question,
    words: &[u64],
    at: usize,
    k: usize,
    slots: usize,
    verdict: Verdict,
) -> Relaxed
    requires { Relaxing (problem_of entries.now q) words.now at k slots × (at + k + 64 + k < length words.now) }
    ensures { RelaxedIs (problem_of entries.now q) (slots_of words.now slots) (codes_from words.now at k) result }
{
    match verdict {
        Verdict::Weights(r) => by_weights(entries, q, words, at, k, slots, r),
        Verdict::Copies => by_copies(entries, q, words, at, k, slots),
        Verdict::Unknown(j, first) => Relaxed::Unknown(j, first),
    }
}

// Whether there are words for that behind the k sets from a place on.
fn has_room(words: &[u64], at: usize, k: usize) -> bool
    requires { at + k ≤ length words.now }
    ensures { result ≡ true → at + k + 64 + k < length words.now }
{
    let spare = words.len() - at - k;
    64 < spare && k < spare - 64
}

// What is seen of the slots and the k sets from a place on.
pub fn seen(
    entries: &[u64],
    q: Question,
    words: &mut [u64],
    at: usize,
    k: usize,
    slots: usize,
) -> Relaxed
    requires { Relaxing (problem_of entries.now q) words.old at k slots }
    ensures { Seen (problem_of entries.now q) words.old at k slots result words.new }
{
    if !has_room(words, at, k) {
        return UNSEEN;
    }
    let verdict = found(entries, q, words, at, k, slots);
    checked(entries, q, words, at, k, slots, verdict)
}

// The divisor of weights that refute that the k sets from a place on give a solution, if some are found. The weights stand in
// the 64 words behind those then. Nothing is promised of them: sets that are not listed may still give one.
pub fn weights(entries: &[u64], q: Question, words: &mut [u64], at: usize, k: usize) -> Option<u64>
    requires { Relaxing (problem_of entries.now q) words.old at k 0 }
    ensures { SameBelow (at + k) words.old words.new }
{
    if !has_room(words, at, k) {
        return None;
    }
    match found(entries, q, words, at, k, 0) {
        Verdict::Weights(r) => Some(r),
        Verdict::Copies | Verdict::Unknown(_, _) => None,
    }
}
