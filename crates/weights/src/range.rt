// A check of weights for a whole range of copies: do they refute every number of copies of one set, besides the listed ones?
ghost use Rattle.std.specs.Prelude.{◌≡◌, true, ◌∷◌, ℕ, ◌+◌, ◌*◌, ◌<◌, ◌≤◌, length};
ghost use Rattle.sets.specs.Set.{code};
ghost use Rattle.tableau.specs.Search.{taken, Extension};
ghost use Rattle.counting.specs.Question.{problem_of, Small};
ghost use Rattle.counting.specs.Stack.{slots_of, Few};
ghost use Rattle.listed.specs.Codes.{codes_from};

use crate::{all_balanced, left, weigh};
use counting::question::{Question, asked};
use sets::Set;

// Whether more is lacking than there is room for, besides m copies of a set that each serve and cost so much.
fn lacking(lack: u64, room: u64, serves: u64, costs: u64, m: u64) -> bool
    requires { (lack ≤ 281474976710656) × (room ≤ 281474976710656) × (serves ≤ 68719476736) × (costs ≤ 68719476736) × (m ≤ 4096) }
    ensures { result ≡ true → room + m * serves < lack + m * costs }
{
    room + m * serves < lack + m * costs
}

// Whether the weights are seen to refute every number of copies of the set b from low to high: that no such number, and copies
// of the k sets from the place `at` on, complete the slots. What is refuted at both ends is refuted between them.
pub fn spans(
    entries: &[u64],
    q: Question,
    words: &[u64],
    at: usize,
    k: usize,
    slots: usize,
    from: usize,
    b: Set,
    low: u64,
    high: u64,
) -> bool
    requires { Small (problem_of entries.now q) × Few words.now slots × (at + k ≤ length words.now) × (from + 64 ≤ length words.now)
        × (low ≤ 4096) × (high ≤ 4096) }
    ensures { result ≡ true → (m : ℕ) → low ≤ m → m ≤ high
        → Extension (problem_of entries.now q) (taken (code b) m ∷ slots_of words.now slots) (codes_from words.now at k) → ⊥ }
{
    let needs = asked(entries, q, true);
    let limits = asked(entries, q, false);
    let lack = left(entries, words, slots, from, needs, true);
    let room = left(entries, words, slots, from, limits, false);
    let serves = weigh(words, from, needs.intersection(b));
    let costs = weigh(words, from, limits.minus(b));
    if !lacking(lack, room, serves, costs, low) || !lacking(lack, room, serves, costs, high) {
        return false;
    }
    all_balanced(words, at, k, from, needs, limits, 1)
}
