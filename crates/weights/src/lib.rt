// A check of weights on needs and limits, in lent words: do they refute that copies of listed sets complete the slots? (Known as
// a Farkas certificate; with a divisor that sums are rounded by, as a Chvátal-Gomory cut.) Where the weights come from needs no
// proof.
#![tactic(auto)]

ghost use Rattle.std.specs.Prelude.{◌≡◌, true, ℕ, ◌+◌, ◌<◌, ◌≤◌, length};
ghost use Rattle.sets.specs.Set.{member, code};
ghost use Rattle.tableau.specs.Search.{Extension};
ghost use Rattle.tableau.specs.Listed.{In};
ghost use Rattle.counting.specs.Question.{problem_of, Small};
ghost use Rattle.counting.specs.Stack.{slots_of, Few};
ghost use Rattle.listed.specs.Codes.{codes_from};
ghost use Rattle.weights.specs.Weighed.{weight_at, over, Balanced, left_weight};

pub mod range;

use counting::bounds;
use counting::question::{Question, asked};
use packed::item_or;
use sets::Set;
use wide::wide_at;

// The weight of entry i.
fn weight(words: &[u64], from: usize, i: usize) -> u64
    requires { (from + 64 ≤ length words.now) × (i < 64) }
    ensures { result ≡ weight_at words.now from i }
{
    item_or(words, from + i, 0) % 1073741824
}

// The sum of a value of each member of a set.
fn sum_over<F: Fn(usize) -> u64>(set: Set, value: F) -> u64
    requires callable { (i : ℕ) → i < 64 → F.pre value i }
    requires small { (i x : ℕ) → i < 64 → F.post value i x → x ≤ 4398046511104 }
    ensures { (f : ℕ → ℕ) → ((i x : ℕ) → i < 64 → F.post value i x → x ≡ f i) → result ≡ over (member set) f }
{
    let mut sum = 0;
    let mut rest = set;
    while let Some(i) = rest.highest() {
        sum += value(i);
        rest = rest.without(i);
    }
    sum
}

// What the members of a set weigh.
fn weigh(words: &[u64], from: usize, set: Set) -> u64
    requires { from + 64 ≤ length words.now }
    ensures { (result ≡ over (member set) (weight_at words.now from)) × (result ≤ 68719476736) }
{
    sum_over(set, |i| weight(words, from, i))
}

// Whether a set, rounded, serves no more of the needs than it costs of the limits.
fn balanced(words: &[u64], from: usize, needs: Set, limits: Set, r: u64, set: Set) -> bool
    requires { (from + 64 ≤ length words.now) × (0 < r) }
    ensures { result ≡ true → Balanced words.now from (member needs) (member limits) r (code set) }
{
    let serves = weigh(words, from, needs.intersection(set));
    let costs = weigh(words, from, limits.minus(set));
    serves.div_ceil(r) <= costs / r
}

// Whether each of the k sets from a place on is balanced.
fn all_balanced(
    words: &[u64],
    at: usize,
    k: usize,
    from: usize,
    needs: Set,
    limits: Set,
    r: u64,
) -> bool
    requires { (at + k ≤ length words.now) × (from + 64 ≤ length words.now) × (0 < r) }
    ensures { result ≡ true → (c : ℕ) → In c (codes_from words.now at k)
        → Balanced words.now from (member needs) (member limits) r c }
{
    for j in 0..k {
        let set = Set::of_code(item_or(words, at + j, 0));
        if !balanced(words, from, needs, limits, r, set) {
            return false;
        }
    }
    true
}

// What entry i lacks behind the slots, or else the room under it, by its weight. Slots are counted only where it has one.
fn left_at(entries: &[u64], words: &[u64], slots: usize, from: usize, i: usize, need: bool) -> u64
    requires { Few words.now slots × (from + 64 ≤ length words.now) × (i < 64) }
    ensures { result ≡ left_weight entries.now words.now slots from need i }
{
    let w = weight(words, from, i);
    if w == 0 {
        return 0;
    }
    w * bounds::left(wide_at(entries, i), words, slots, i, need)
}

// What the members of a set lack behind the slots, or else the room under them, by their weights.
fn left(entries: &[u64], words: &[u64], slots: usize, from: usize, set: Set, need: bool) -> u64
    requires { Few words.now slots × (from + 64 ≤ length words.now) }
    ensures { (result ≡ over (member set) (left_weight entries.now words.now slots from need)) × (result ≤ 281474976710656) }
{
    sum_over(set, |i| left_at(entries, words, slots, from, i, need))
}

// Whether the weights are seen to refute that copies of the k sets from the place `at` on complete the slots. The weight of
// entry i is the word at from + i, of which only the lower 30 bits count: no sum of them wraps. Sums are divided by r and
// rounded; an r of 0 refutes nothing.
pub fn refutes(
    entries: &[u64],
    q: Question,
    words: &[u64],
    at: usize,
    k: usize,
    slots: usize,
    from: usize,
    r: u64,
) -> bool
    requires { Small (problem_of entries.now q) × Few words.now slots × (at + k ≤ length words.now) × (from + 64 ≤ length words.now) }
    ensures { result ≡ true
        → Extension (problem_of entries.now q) (slots_of words.now slots) (codes_from words.now at k) → ⊥ }
{
    if r == 0 {
        return false;
    }
    let needs = asked(entries, q, true);
    let limits = asked(entries, q, false);
    let lack = left(entries, words, slots, from, needs, true);
    let room = left(entries, words, slots, from, limits, false);
    room / r < lack.div_ceil(r) && all_balanced(words, at, k, from, needs, limits, r)
}
