// A check of numbers of copies of listed sets, in lent words: do they complete the slots to a solution?
// Where the numbers come from needs no proof.
#![tactic(auto)]

ghost use Rattle.std.specs.Prelude.{◌≡◌, true, ◌+◌, ◌≤◌, length};
ghost use Rattle.tableau.specs.Search.{Extension};
ghost use Rattle.counting.specs.Question.{problem_of};
ghost use Rattle.counting.specs.Stack.{slots_of, tally_of, Few};
ghost use Rattle.listed.specs.Codes.{codes_from};
ghost use Rattle.copies.specs.Filled.{filled, Placed, HoldsAt};

use counting::question::Question;
use counting::{question, stack};
use packed::item_or;
use wide::wide_at;

// How many successors are in the slots and the copies together, of those that promise entry i, or of those that do not.
fn amount(
    words: &[u64],
    at: usize,
    k: usize,
    slots: usize,
    from: usize,
    i: usize,
    promised: bool,
) -> u64
    requires { Placed words.now at k slots from }
    ensures { result ≡ tally_of promised i (filled words.now at k slots from) }
{
    let mut sum = stack::tally(words, slots, i, promised);
    for j in 0..k {
        let code = item_or(words, at + j, 0);
        let copies = item_or(words, from + j, 0) % 65536;
        sum += stack::share(code, copies, i, promised);
    }
    sum
}

// Whether entry i is met, if it is a need, or else kept, if it is a limit.
fn holds_at(
    entries: &[u64],
    q: Question,
    words: &[u64],
    at: usize,
    k: usize,
    slots: usize,
    from: usize,
    i: usize,
    need: bool,
) -> bool
    requires { Placed words.now at k slots from }
    ensures { result ≡ true → HoldsAt (problem_of entries.now q) (filled words.now at k slots from) need i }
{
    let e = wide_at(entries, i);
    if !question::asks(e, q, i, need) {
        return true;
    }
    let bound = question::bound(e, need);
    let count = amount(words, at, k, slots, from, i, need);
    if need { bound <= count } else { count <= bound }
}

// Whether copies of the k sets from the place `at` on are seen to complete the slots. The copies of set j are the word at
// from + j, of which only the lower 16 bits count: no sum of them wraps. More than 2^32 sets are not looked at.
pub fn completes(
    entries: &[u64],
    q: Question,
    words: &[u64],
    at: usize,
    k: usize,
    slots: usize,
    from: usize,
) -> bool
    requires { Few words.now slots × (at + k ≤ length words.now) × (from + k ≤ length words.now) }
    ensures { result ≡ true
        → Extension (problem_of entries.now q) (slots_of words.now slots) (codes_from words.now at k) }
{
    if 4294967296 < k {
        return false;
    }
    for i in 0..entries.len() {
        if !holds_at(entries, q, words, at, k, slots, from, i, true)
            || !holds_at(entries, q, words, at, k, slots, from, i, false)
        {
            return false;
        }
    }
    true
}
