// A list of sets of promises that can be kept: where it stands in the words of a level, whether a set is inside a listed one,
// one more, whether they give a solution, and what weights that refute that are worth to other sets.
ghost use Rattle.std.specs.Prelude.{◌≡◌, true, ◌-◌, ◌≤◌, length};
ghost use Rattle.sets.specs.Set.{member, code};
ghost use Rattle.listed.specs.Codes.{Inside};
ghost use Rattle.wide.specs.Wide.{wide_in};
ghost use Rattle.counting.specs.Question.{problem_of, Small};
ghost use Rattle.selection.specs.Selecting.{SolvedIs};
ghost use Rattle.cases.specs.Levels.{list_room, Remembers};
ghost use Rattle.promises.specs.Listing.{Placed, list_of, AlsoIs, AlsoNew, SelectAsked, WeighAsked, FitList, NarrowedIs};

use cases::level::Level;
use counting::bounds::unmet;
use counting::question::{Question, closed};
use listed::{append, covered};
use pricing::{Prices, prices_from, weighing};
use relaxing::weights;
use selection::solved;
use sets::Set;

// There is no room for more sets than are listed.
#[derive(Clone, Copy)]
pub struct Full {
    pub listed: usize,
}

// Where the list begins in a level.
pub fn place(n: usize, level: usize) -> usize
    requires { (n ≤ 64) × (list_room n ≤ level) }
    ensures { result ≡ level - list_room n }
{
    level - (8 * n + 8)
}

// Whether the set is inside one of the k listed sets.
pub fn known(entries: &[u64], set: Set, k: usize, level: usize, work: &[u64]) -> bool
    requires { Placed (length entries.now) k level (length work.now) }
    ensures { result ≡ true → Inside (member set) (list_of (length entries.now) level work.now k) }
{
    covered(work, place(entries.len(), level), k, set)
}

// Lists the set too, if there is room, and tells how many are listed then.
pub fn also(
    entries: &[u64],
    set: Set,
    k: usize,
    level: usize,
    work: &mut [u64],
) -> Result<usize, Full>
    requires { Placed (length entries.now) k level (length work.old) }
    ensures { AlsoIs (length entries.now) level k (code set) work.old work.new result }
{
    let n = entries.len();
    if 8 * n + 8 <= k {
        return Err(Full { listed: k });
    }
    append(work, place(n, level), k, set);
    Ok(k + 1)
}

// Lists the set too, if it is not empty and not inside a listed one, and there is room; how many are listed then.
pub fn also_new(entries: &[u64], set: Set, k: usize, level: usize, work: &mut [u64]) -> usize
    requires { Placed (length entries.now) k level (length work.old) }
    ensures { AlsoNew (length entries.now) level k set work.old work.new result }
{
    if set.is_empty() || known(entries, set, k, level, work) {
        return k;
    }
    also(entries, set, k, level, work).unwrap_or(k)
}

// Whether k listed sets give a solution.
pub fn selected(
    entries: &[u64],
    q: Question,
    all: Set,
    k: usize,
    level: Level,
    work: &mut [u64],
) -> bool
    requires { SelectAsked (problem_of entries.now q) all k level.depth level.size work.old }
    ensures { SolvedIs (problem_of entries.now q) (list_of (length entries.now) level.size work.old k) result
        × Remembers (wide_in entries.now) level.depth level.size work.new }
{
    let at = place(entries.len(), level.size);
    let reach = level.memory();
    solved(entries, q, all, &mut work[..reach], at, k)
}

// The divisor of weights that refute that k listed sets give a solution, if any are found: they stand in the words behind the
// list then.
pub fn weighs(entries: &[u64], q: Question, k: usize, level: Level, work: &mut [u64]) -> Option<u64>
    requires { WeighAsked (problem_of entries.now q) k level.depth level.size work.old }
    ensures { FitList (problem_of entries.now q) k level.depth level.size work.new }
{
    let at = place(entries.len(), level.size);
    let reach = level.memory();
    weights(entries, q, &mut work[..reach], at, k)
}

// What they are worth. Nothing is promised of that: it says what to try next.
pub fn prices_behind(
    entries: &[u64],
    q: Question,
    k: usize,
    r: u64,
    level: usize,
    work: &[u64],
) -> Prices
    requires { Placed (length entries.now) k level (length work.now) }
{
    let at = place(entries.len(), level);
    prices_from(entries, q, work, at + k, r)
}

// The entries that are guessed to have no solution (known as an unsatisfiable core): these, and the limits that allow none,
// which every listed set promises.
pub fn blamed(entries: &[u64], q: Question, weighted: Set) -> Set
    requires { Small (problem_of entries.now q) }
{
    weighted.union(closed(entries, q))
}

// The same where k listed sets gave no solution: what the weights behind the list speak of, or a need, if none is served.
pub fn blamed_behind(entries: &[u64], q: Question, k: usize, level: usize, work: &[u64]) -> Set
    requires { Small (problem_of entries.now q) × Placed (length entries.now) k level (length work.now) }
{
    if k == 0 {
        return blamed(entries, q, unmet(entries, q, work, 0).highest_alone());
    }
    let at = place(entries.len(), level);
    blamed(entries, q, weighing(work, at + k))
}

// Whether all the largest sets (known as maximal satisfiable subsets) are likely to be listed soon: there are few promises,
// and no successor counts further, so that it costs little to ask whether it can be had.
pub fn is_short(all: Set, depth: usize) -> bool {
    depth == 1 && all.len() <= 12
}

// The question of the entries in a set alone.
pub fn narrowed(q: Question, s: Set) -> Question
    ensures { NarrowedIs q s result }
{
    Question {
        yes: q.yes.intersection(s),
        no: q.no.intersection(s),
        relation: q.relation,
    }
}
