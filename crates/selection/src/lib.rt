// The search for a solution over a list of sets of promises (known as branch and bound). A linear relaxation of what is left
// tells that there is none, or finds one, or tells which listed set to take next and how often to take it first; every other
// number of copies that is of use is tried after that, until weights refute all that are left at once. The search asks nothing.
// The codes of the list stand in lent words, behind the stack of slots, and the words behind them are there for the relaxation.
#![tactic(auto)]

ghost use Rattle.std.specs.Prelude.{◌≡◌, true, suc, ◌<◌, ◌≤◌, length};
ghost use Rattle.sets.specs.Set.{code};
ghost use Rattle.counting.specs.Question.{problem_of};
ghost use Rattle.counting.specs.Stack.{slots_of};
ghost use Rattle.listed.specs.Codes.{codes_from};
ghost use Rattle.relaxing.specs.Relaxing.{Relaxing};
ghost use Rattle.selection.specs.Selecting.{ListAsked, SolvedIs, Selecting, Varying, Between, Selected, Tried, Varied};

use counting::question::Question;
use counting::{bounds, stack};
use packed::item_or;
use relaxing::Relaxed;
use sets::Set;
use weights::range::spans;

// Whether the needs and limits have a solution of listed sets: the k codes from a place on. `all` are the needs and limits.
pub fn solved(
    entries: &[u64],
    q: Question,
    all: Set,
    words: &mut [u64],
    at: usize,
    k: usize,
) -> bool
    requires { ListAsked (problem_of entries.now q) all words.old at k }
    ensures { SolvedIs (problem_of entries.now q) (codes_from words.old at k) result }
{
    select(entries, q, all, words, at, k, 0)
}

// Whether copies of the k listed sets from a place on make the slots a solution.
#[cycle(select)]
#[tactic(auto, using(crate::proofs::Selecting::none_selected))]
fn select(
    entries: &[u64],
    q: Question,
    all: Set,
    words: &mut [u64],
    at: usize,
    k: usize,
    slots: usize,
) -> bool
    requires { Selecting (problem_of entries.now q) all words.old at k slots }
    ensures { Selected (problem_of entries.now q) words.old at k slots result words.new }
{
    if bounds::met(entries, q, all, words, slots) {
        return true;
    }
    if k == 0 {
        return false;
    }
    match relaxing::seen(entries, q, words, at, k, slots) {
        Relaxed::Refuted => false,
        Relaxed::Solved => true,
        Relaxed::Unknown(j, first) => branch(entries, q, all, words, at, k - 1, slots, j, first),
    }
}

// A number if it is in range, else 0.
fn within(j: usize, k: usize) -> usize
    ensures { result ≤ k }
{
    if j <= k { j } else { 0 }
}

// Whether the weights behind the list, as the last relaxation left them, are seen to refute every number of copies of the set b
// from low to high.
fn spanned(
    entries: &[u64],
    q: Question,
    words: &[u64],
    at: usize,
    k: usize,
    slots: usize,
    b: Set,
    low: u64,
    high: u64,
) -> bool
    requires { Relaxing (problem_of entries.now q) words.now at k slots × (low ≤ 4096) × (high ≤ 4096) }
    ensures { result ≡ true
        → Between (problem_of entries.now q) (slots_of words.now slots) (code b) low (suc high) (codes_from words.now at k) → ⊥ }
{
    64 <= words.len() - at - k && spans(entries, q, words, at, k, slots, at + k, b, low, high)
}

// The same, of the set at a place and the k sets behind it: set j of these is taken first, and so many copies of it.
#[cycle(select)]
fn branch(
    entries: &[u64],
    q: Question,
    all: Set,
    words: &mut [u64],
    at: usize,
    k: usize,
    slots: usize,
    j: usize,
    first: u64,
) -> bool
    requires { Selecting (problem_of entries.now q) all words.old at (suc k) slots }
    ensures { Selected (problem_of entries.now q) words.old at (suc k) slots result words.new }
{
    let other = at + within(j, k);
    words.swap(at, other);
    let found = vary(entries, q, all, words, at, k, slots, first);
    words.swap(at, other);
    found
}

// The same, of the set at a place and the k sets behind it: so many copies of it come first, then more, then less.
#[cycle(select)]
fn vary(
    entries: &[u64],
    q: Question,
    all: Set,
    words: &mut [u64],
    at: usize,
    k: usize,
    slots: usize,
    first: u64,
) -> bool
    requires { Selecting (problem_of entries.now q) all words.old at (suc k) slots }
    ensures { Selected (problem_of entries.now q) words.old at (suc k) slots result words.new }
{
    let b = Set::of_code(item_or(words, at, 0));
    let most = bounds::useful(entries, q, b, words, slots);
    let start = first.min(most);
    rise(entries, q, all, words, at + 1, k, slots, b, start, most)
        || fall(entries, q, all, words, at + 1, k, slots, b, start)
}

// With so many copies of the set b or more, up to the most, and copies of the k listed sets from a place on.
#[cycle(select)]
fn rise(
    entries: &[u64],
    q: Question,
    all: Set,
    words: &mut [u64],
    at: usize,
    k: usize,
    slots: usize,
    b: Set,
    start: u64,
    most: u64,
) -> bool
    requires { Varying (problem_of entries.now q) all words.old at k slots (code b) most }
    ensures { Varied (problem_of entries.now q) words.old at k slots (code b) start (suc most) result words.new }
{
    for m in start..=most {
        if tried(entries, q, all, words, at, k, slots, b, m) {
            return true;
        }
        if spanned(entries, q, words, at, k, slots, b, m, most) {
            return false;
        }
    }
    false
}

// With fewer copies of the set b, down to none.
#[cycle(select)]
fn fall(
    entries: &[u64],
    q: Question,
    all: Set,
    words: &mut [u64],
    at: usize,
    k: usize,
    slots: usize,
    b: Set,
    end: u64,
) -> bool
    requires { Varying (problem_of entries.now q) all words.old at k slots (code b) end }
    ensures { Varied (problem_of entries.now q) words.old at k slots (code b) 0 end result words.new }
{
    for m in (0..end).rev() {
        if tried(entries, q, all, words, at, k, slots, b, m) {
            return true;
        }
        if spanned(entries, q, words, at, k, slots, b, 0, m) {
            return false;
        }
    }
    false
}

// With m copies of the set b.
#[cycle(select)]
fn tried(
    entries: &[u64],
    q: Question,
    all: Set,
    words: &mut [u64],
    at: usize,
    k: usize,
    slots: usize,
    b: Set,
    m: u64,
) -> bool
    requires { Varying (problem_of entries.now q) all words.old at k slots (code b) m }
    ensures { Tried (problem_of entries.now q) words.old at k slots (code b) m result words.new }
{
    if m == 0 {
        return select(entries, q, all, words, at, k, slots);
    }
    stack::put_slot(words, slots, b, m);
    select(entries, q, all, words, at, k, slots + 1)
}
