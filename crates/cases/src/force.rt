// What follows at once from what is wanted, without a split: where one part of a pending entry is as it serves, or the other
// one is not, this part is wanted, and the entry is pending no more. What was learnt tells of parts that they cannot be so
// (known as unit propagation, here with the learnt nogoods).
ghost use Rattle.std.specs.Prelude.{◌≡◌, ◌<◌, length};
ghost use Rattle.table.specs.Formed.{WellFormed};
ghost use Rattle.sets.specs.Set.{member};
ghost use Rattle.wide.specs.Wide.{wide_in};
ghost use Rattle.memory.specs.Memory.{Memory};
ghost use Rattle.cases.specs.World.{Ready, Waiting, WorldAsked};
ghost use Rattle.cases.specs.Force.{never, RuledFor, KnownIs, LeftIs, ForcedIs};

use crate::level::Level;
use crate::serves;
use memory::learnt::{Ruled, rulings};
use sets::Set;
use table::kind::Kind;
use wants::{Wants, want};
use wide::wide_at;

// Looks at what is pending again and again, until nothing more follows. A look that changes something drops an entry, so as
// many looks as there may be entries are enough; nothing rests on that.
pub fn force(entries: &[u64], w: Wants, bound: usize, level: Level, work: &[u64]) -> Option<Wants>
    requires { WorldAsked (wide_in entries.now) (length entries.now) w bound level.depth level.size work.now }
    ensures { ForcedIs (wide_in entries.now) (length entries.now) w bound level.depth result }
{
    let from = level.memory();
    let mut v = w;
    for _ in 0..64 {
        let u = informed(entries, v, bound, level.depth, from, work)?;
        if v.pending.code() == u.pending.code() {
            return Some(u);
        }
        v = u;
    }
    Some(v)
}

// One look, with what was learnt: it tells of entries that they cannot be so, or that no world is as wanted.
fn informed(
    entries: &[u64],
    w: Wants,
    bound: usize,
    depth: usize,
    from: usize,
    work: &[u64],
) -> Option<Wants>
    requires { Ready (wide_in entries.now) (length entries.now) w bound depth × Memory (wide_in entries.now) work.now from }
    ensures { ForcedIs (wide_in entries.now) (length entries.now) w bound depth result }
{
    let known = rulings(work, from, w.yes, w.no)?;
    look(entries, w, known, bound, depth)
}

// Looks at each pending entry once, from the highest down: those that come in on the way are lower, so it comes to them too.
fn look(entries: &[u64], w: Wants, known: Ruled, bound: usize, depth: usize) -> Option<Wants>
    requires { Ready (wide_in entries.now) (length entries.now) w bound depth × RuledFor (wide_in entries.now) w known }
    ensures { ForcedIs (wide_in entries.now) (length entries.now) w bound depth result }
{
    let mut v = w;
    let mut seen = Set::empty();
    while let Some(d) = v.pending.minus(seen).highest() {
        v = force_at(entries, v, known, d, bound, depth)?;
        seen = seen.with(d);
    }
    Some(v)
}

// The same for the pending entry d alone.
fn force_at(
    entries: &[u64],
    w: Wants,
    known: Ruled,
    d: usize,
    bound: usize,
    depth: usize,
) -> Option<Wants>
    requires { Waiting (wide_in entries.now) (length entries.now) w d bound depth × RuledFor (wide_in entries.now) w known }
    ensures { ForcedIs (wide_in entries.now) (length entries.now) w bound depth result }
{
    let Some(i) = part_left(entries, w, known, d, bound, depth) else {
        return Some(w);
    };
    let serving = serves(wide_at(entries, d));
    Some(want(entries, i, w, serving)?.lighten(d))
}

// The part of the pending entry d that must be as it serves, if what is known of one of them says so.
fn part_left(
    entries: &[u64],
    w: Wants,
    known: Ruled,
    d: usize,
    bound: usize,
    depth: usize,
) -> Option<usize>
    requires { Waiting (wide_in entries.now) (length entries.now) w d bound depth × RuledFor (wide_in entries.now) w known }
    ensures { LeftIs (wide_in entries.now) d w result }
{
    let e = wide_at(entries, d);
    let serving = serves(e);
    let first = e.first as usize;
    let second = e.second as usize;
    match told(entries, w, known, first, serving) {
        Some(true) => Some(first),
        Some(false) => Some(second),
        None => match told(entries, w, known, second, serving) {
            Some(true) => Some(second),
            Some(false) => Some(first),
            None => None,
        },
    }
}

// The entries that are ruled out to be so.
fn ruled(known: Ruled, truth: bool) -> Set
    ensures { member result ≡ never known truth }
{
    if truth { known.yes } else { known.no }
}

// Whether entry i is so at any world that is as wanted, if that is known: it is wanted itself, or the contrary is ruled out, or it
// is the not of an entry that is not so.
fn told(entries: &[u64], w: Wants, known: Ruled, i: usize, truth: bool) -> Option<bool>
    requires { WellFormed (wide_in entries.now) (length entries.now) × (i < length entries.now) × RuledFor (wide_in entries.now) w known }
    ensures { KnownIs (wide_in entries.now) truth i w result }
{
    let so = w.wanted(truth);
    let against = w.wanted(!truth);
    if so.contains(i) {
        return Some(true);
    }
    if against.contains(i) {
        return Some(false);
    }
    if ruled(known, truth).contains(i) {
        return Some(false);
    }
    if ruled(known, !truth).contains(i) {
        return Some(true);
    }
    let e = wide_at(entries, i);
    if Kind::of(e.kind) == Some(Kind::Not) {
        let part = e.first as usize;
        if against.contains(part) {
            return Some(true);
        }
        if so.contains(part) {
            return Some(false);
        }
    }
    None
}
