// References turned to places that mean the same: equal parts are then the same part, and what a constant or a double
// negation adds is read no more.
ghost use Rattle.std.specs.Prelude.{◌≡◌, true, suc, ◌≤◌, get_or};
ghost use Rattle.table.specs.Formed.{WellFormed};
ghost use Rattle.wide.specs.Wide.{wide_in, FitsWide};
ghost use Rattle.wide.specs.Fold.{join_kind, constant_kind, Spare, Turned, Folded};

use crate::wide_at;
use packed::item_or;
use table::entry::Entry;
use table::kind::Kind;

// The first of the words up to place r that is the same as the word there.
fn first_like(words: &[u64], r: usize) -> usize
    ensures { (result ≤ r) × (get_or words.now result 0 ≡ get_or words.now r 0) }
{
    let word = item_or(words, r, 0);
    (0..r).find(|&j| item_or(words, j, 0) == word).unwrap_or(r)
}

// The place of a, if the "not" at place r is "not not a"; otherwise r.
fn undoubled(words: &[u64], r: usize) -> usize
    requires { WellFormed (wide_in words.now) (suc r) × ((wide_in words.now r).kind ≡ 3) }
    ensures { Turned (wide_in words.now) (suc r) result r }
{
    let outer = wide_at(words, r);
    let inner = wide_at(words, outer.first as usize);
    if let Some(Kind::Not) = Kind::of(inner.kind) {
        inner.first as usize
    } else {
        r
    }
}

// The number of the kind of a constant.
fn constant(truth: bool) -> u32
    ensures { result ≡ constant_kind truth }
{
    if truth {
        Kind::True.number()
    } else {
        Kind::False.number()
    }
}

// Whether an "and", or else an "or", comes to its part of the other kind: this one is the constant that adds nothing, or the
// other one is the constant that decides.
fn spare(kind: u32, other: u32, and: bool) -> bool
    ensures { result ≡ true → Spare and kind other }
{
    kind == constant(and) || other == constant(!and)
}

// The place of the part that the "and", or else the "or", at place r comes to, if a part is a constant or both are the same;
// otherwise r.
fn joined(words: &[u64], r: usize, and: bool) -> usize
    requires { WellFormed (wide_in words.now) (suc r) × ((wide_in words.now r).kind ≡ join_kind and) }
    ensures { Turned (wide_in words.now) (suc r) result r }
{
    let e = wide_at(words, r);
    let first = e.first as usize;
    let second = e.second as usize;
    let left = wide_at(words, first).kind;
    let right = wide_at(words, second).kind;
    if spare(left, right, and) {
        second
    } else if first == second || spare(right, left, and) {
        first
    } else {
        r
    }
}

// The place that the entry at place r comes to by what its parts are.
fn simpler(words: &[u64], r: usize) -> usize
    requires { WellFormed (wide_in words.now) (suc r) }
    ensures { Turned (wide_in words.now) (suc r) result r }
{
    match Kind::of(wide_at(words, r).kind) {
        Some(Kind::Not) => undoubled(words, r),
        Some(Kind::And) => joined(words, r, true),
        Some(Kind::Or) => joined(words, r, false),
        Some(Kind::True | Kind::False | Kind::Fact | Kind::AtLeast | Kind::AtMost) | None => r,
    }
}

// The place to which a reference to place r is turned, of the first n.
fn stand_in(words: &[u64], n: usize, r: u32) -> u32
    requires { WellFormed (wide_in words.now) n }
    ensures { Turned (wide_in words.now) n result r }
{
    let place = r as usize;
    if n <= place {
        return r;
    }
    first_like(words, simpler(words, place)) as u32
}

// The entry with its references turned. Those of the entries before it have been, so one look at each part is enough.
pub fn folded(words: &[u64], n: usize, e: Entry) -> Entry
    requires { FitsWide e × WellFormed (wide_in words.now) n }
    ensures { Folded (wide_in words.now) n e result × FitsWide result }
{
    Entry {
        first: stand_in(words, n, e.first),
        second: stand_in(words, n, e.second),
        ..e
    }
}
