// What weights that refute a list of sets are worth to sets that are not listed: which promises weigh most, and whether a set
// would do better than the listed ones (known as pricing, a step of column generation). Nothing rests on it: it says what to try
// next.
#![tactic(auto)]

ghost use Rattle.std.specs.Prelude.{◌≡◌, ◌<◌, ◌≤◌, true, length};
ghost use Rattle.sets.specs.Set.{member, nothing, Within};

use counting::question::{Question, asked};
use packed::item_or;
use sets::Set;
use simplex::row_weights::Sides;

// The needs, the entries that weigh something, the divisor by which weights are rounded, and the weights of all entries: bit b
// of an entry's weight is in plane b. Greater weights are halved until they fit, and not rounded then.
#[derive(Clone, Copy)]
pub struct Prices {
    pub needs: Set,
    pub heavy: Set,
    pub divisor: u64,
    pub planes: [Set; 8],
}

// No needs, and nothing weighs anything.
pub fn flat() -> Prices {
    Prices {
        needs: Set::empty(),
        heavy: Set::empty(),
        divisor: 1,
        planes: [Set::empty(); 8],
    }
}

// The weight of entry i. The weights are the 64 words from a place on.
fn weight(words: &[u64], from: usize, i: usize) -> u64 {
    item_or(words, from.wrapping_add(i), 0)
}

// The greatest weight.
fn greatest(words: &[u64], from: usize) -> u64 {
    (0..64).map(|i| weight(words, from, i)).max().unwrap_or(0)
}

// How often a weight is halved to be below 256.
fn halvings(weight: u64) -> usize
    ensures { result ≤ 56 }
{
    56u32.saturating_sub(weight.leading_zeros()) as usize
}

// The entries whose weights are as is asked.
fn with_weight<F: Fn(u64) -> bool>(words: &[u64], from: usize, asked: F) -> Set
    requires { F.IsAlwaysCallable asked }
{
    let mut found = Set::empty();
    for i in 0..64 {
        if asked(weight(words, from, i)) {
            found = found.with(i);
        }
    }
    found
}

// The eight planes from a bit on.
fn planes_from(words: &[u64], from: usize, lowest: usize) -> [Set; 8]
    requires { lowest ≤ 56 }
{
    let mut planes = [Set::empty(); 8];
    for b in 0..8 {
        planes[b] = with_weight(words, from, |w| (w >> (lowest + b)) & 1 == 1);
    }
    planes
}

// The entries that weigh something, by the 64 words from a place on.
pub fn weighing(words: &[u64], from: usize) -> Set {
    with_weight(words, from, |w| w != 0)
}

// What the 64 words from a place on say, as weights of the entries, rounded by a divisor.
pub fn prices_from(entries: &[u64], q: Question, words: &[u64], from: usize, r: u64) -> Prices
    requires { length entries.now ≤ 64 }
{
    let lowest = halvings(greatest(words, from));
    Prices {
        needs: asked(entries, q, true),
        heavy: weighing(words, from),
        divisor: if lowest == 0 { r } else { 1 },
        planes: planes_from(words, from, lowest),
    }
}

// What a set has in common with a plane, or all of it if that is nothing.
fn narrowed(set: Set, plane: Set) -> Set
    ensures { Within (member result) (member set) }
{
    let common = set.intersection(plane);
    if common.is_empty() { set } else { common }
}

// Those of the set that weigh most, if any weigh.
pub fn heaviest(p: Prices, rest: Set) -> Set
    ensures { Within (member result) (member rest) }
{
    // Nothing weighs where there are no needs.
    if p.needs.is_empty() {
        return rest;
    }
    let mut found = rest;
    for plane in p.planes.iter().rev() {
        found = narrowed(found, *plane);
    }
    found
}

// The entries that weigh something.
pub fn weighted(p: Prices) -> Set {
    p.heavy
}

// What the members of a set weigh, one plane after the other from the highest on.
fn total(p: Prices, set: Set) -> u64 {
    p.planes.iter().rev().fold(0, |sum: u64, plane| {
        sum.wrapping_add(sum)
            .wrapping_add(u64::from(plane.common(set)))
    })
}

// Whether the needs in the set, rounded, weigh more than the limits outside it. Nothing else weighs, and an empty set never pays.
pub fn pays(p: Prices, set: Set) -> bool
    ensures { result ≡ true → member set ≡ nothing → ⊥ }
{
    if set.is_empty() {
        return false;
    }
    let limits = p.heavy.minus(p.needs);
    let sides = Sides {
        needs: total(p, p.needs.intersection(set)),
        limits: total(p, limits.minus(set)),
    };
    sides.exceeds(p.divisor)
}
