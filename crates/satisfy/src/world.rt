// Whether what is wanted can be had at a world: the functions that call each other. A world splits what is pending, and then
// asks of each relation whether its needs and limits have a solution; the search for that asks of a set of promises whether a
// successor can keep them, at a world one less deep, worked in the rest of the lent words.
ghost use Rattle.std.specs.Prelude.{◌≡◌, true, ◌-◌, length};
ghost use Rattle.sets.specs.Set.{member, either, Within};
ghost use Rattle.wide.specs.Wide.{wide_in};
ghost use Rattle.semantics.specs.Answer.{Answers};
ghost use Rattle.tableau.specs.Search.{Solvable};
ghost use Rattle.counting.specs.Question.{problem_of};
ghost use Rattle.cases.specs.World.{SatW, WorldAsked};
ghost use Rattle.cases.specs.Levels.{Remembers};
ghost use Rattle.promises.specs.Listing.{FitList};
ghost use Rattle.satisfy.specs.Asking.{CountAsked, CountAnswers, LeafAsked, RelationAsked, ProblemAsked, PromisesAsked, RefuteAsked, Kept, Opposed};
ghost use Rattle.satisfy.specs.Greedy.{GrowAsked, GrownIs, GreedyIs};
ghost use Rattle.satisfy.specs.Largest.{ListAsked, ListingIs, CoreAsked, CoreIs, ExtendAsked, SaidIs, GuessIs};

use crate::answers::{Guess, Said};
use cases::branch::branch;
use cases::force::force;
use cases::level::Level;
use counting::bounds::{met, unmet, used_up, useful};
use counting::question::{Question, asking, closed, exceeds, has_need};
use counting::stack::put_slot;
use counting::{Step, search, skip, start, take};
use memory::{recall, remember};
use pricing::{Prices, flat, heaviest, pays, weighted};
use promises::learning::{learn_refuted, learn_world};
use promises::listing::{
    Full, also, also_new, blamed, blamed_behind, is_short, known, narrowed, prices_behind,
    selected, weighs,
};
use promises::promise::{parts_of, promised};
use promises::relation::{counted, question_of};
use sets::Set;
use wants::Wants;

// As many entries as a set can hold: the bound on what is pending before the first split of a world.
pub const ALL: usize = 64;

// Whether some world is as wanted. What is pending is below the bound, and is split from the highest entry down: the first case is
// looked into, and what is left is the second one. What follows without a split comes first (known as propagation). Relations are
// asked before the first split only, since one without a solution settles all cases: to ask again at each split costs more than it
// saves.
#[cycle(world)]
pub fn world(entries: &[u64], w: Wants, bound: usize, level: Level, work: &mut [u64]) -> bool
    requires { WorldAsked (wide_in entries.now) (length entries.now) w bound level.depth level.size work.old }
    ensures { Answers result (SatW (wide_in entries.now) w) × Remembers (wide_in entries.now) level.depth level.size work.new }
{
    let mut v = w;
    let mut top = bound;
    loop {
        let Some(u) = force(entries, v, top, level, work) else {
            return false;
        };
        let Some(d) = u.pending.highest() else {
            return leaf(entries, u, level, work);
        };
        if top == ALL && !all_met(entries, u, level, work) {
            return false;
        }
        if let Some(one) = branch(entries, u, d, true, level.depth) {
            if world(entries, one, d, level, work) {
                return true;
            }
        }
        let Some(two) = branch(entries, u, d, false, level.depth) else {
            return false;
        };
        v = two;
        top = d;
    }
}

// Whether some world is as wanted, where nothing is pending: exactly if every relation has a solution. Such a world is learnt.
#[cycle(world)]
fn leaf(entries: &[u64], w: Wants, level: Level, work: &mut [u64]) -> bool
    requires { LeafAsked (wide_in entries.now) (length entries.now) w level.depth level.size work.old }
    ensures { Answers result (SatW (wide_in entries.now) w) × Remembers (wide_in entries.now) level.depth level.size work.new }
{
    if !all_met(entries, w, level, work) {
        return false;
    }
    learn_world(entries, w, level, work);
    true
}

// Whether every relation has a solution.
#[cycle(world)]
fn all_met(entries: &[u64], w: Wants, level: Level, work: &mut [u64]) -> bool
    requires { CountAsked (wide_in entries.now) (length entries.now) w level.depth level.size work.old }
    ensures { CountAnswers (wide_in entries.now) w result × Remembers (wide_in entries.now) level.depth level.size work.new }
{
    let mut rest = counted(entries, w);
    while let Some(i) = rest.highest() {
        let q = question_of(entries, w, i);
        let all = asking(entries, q);
        if !one_met(entries, q, all, level, work) {
            return false;
        }
        rest = rest.minus(all);
    }
    true
}

// Whether the needs and limits of a relation have a solution, unless the answer is known: that some world is as they alone
// want it is the same question.
#[cycle(world)]
fn one_met(entries: &[u64], q: Question, all: Set, level: Level, work: &mut [u64]) -> bool
    requires { RelationAsked (problem_of entries.now q) all level.depth level.size work.old }
    ensures { Answers result (Solvable (problem_of entries.now q)) × Remembers (wide_in entries.now) level.depth level.size work.new }
{
    let alone = narrowed(q, all);
    let from = level.memory();
    if let Some(known) = recall(work, from, alone.yes, alone.no, true) {
        return known;
    }
    let found = solve(entries, q, all, level, work);
    remember(work, from, alone.yes, alone.no, true, found);
    found
}

// The same by looking for it. If all promises can be kept together, there is a solution; if a need and a limit exclude each
// other, there is none. Then it is looked for greedily; then by a list of sets of promises, all the largest ones or a few that
// weights ask for. Where neither says anything, the search asks as it goes.
#[cycle(world)]
fn solve(entries: &[u64], q: Question, all: Set, level: Level, work: &mut [u64]) -> bool
    requires { ProblemAsked (problem_of entries.now q) all level.depth level.size work.old }
    ensures { Answers result (Solvable (problem_of entries.now q)) × Remembers (wide_in entries.now) level.depth level.size work.new }
{
    if keeps(entries, q, all, level, work) {
        return true;
    }
    if opposed(entries, q, all, level, work) {
        return false;
    }
    if greedy(entries, q, all, all, level, work) {
        return true;
    }
    match lists(entries, q, all, level, work) {
        Said::Yes => true,
        Said::No(_) => false,
        Said::Nothing => probe(entries, q, all, level, work),
    }
}

// What lists of sets say: that of all the largest ones, or one of few that weights ask for, whichever is likely to be shorter first.
#[cycle(world)]
fn lists(entries: &[u64], q: Question, all: Set, level: Level, work: &mut [u64]) -> Said
    requires { ProblemAsked (problem_of entries.now q) all level.depth level.size work.old }
    ensures { SaidIs (problem_of entries.now q) result × Remembers (wide_in entries.now) level.depth level.size work.new }
{
    if is_short(all, level.depth) {
        match by_all(entries, q, all, level, work) {
            Said::Nothing => by_few(entries, q, all, level, work),
            said => said,
        }
    } else {
        match by_few(entries, q, all, level, work) {
            Said::Nothing => by_all(entries, q, all, level, work),
            said => said,
        }
    }
}

// What the list of all the largest sets says. If it says no, those entries that are guessed to be the reason are tried alone, so
// that more is learnt.
#[cycle(world)]
fn by_all(entries: &[u64], q: Question, all: Set, level: Level, work: &mut [u64]) -> Said
    requires { ProblemAsked (problem_of entries.now q) all level.depth level.size work.old }
    ensures { SaidIs (problem_of entries.now q) result × Remembers (wide_in entries.now) level.depth level.size work.new }
{
    match by_list(entries, q, all, level, work) {
        Said::No(s) => {
            if !all.minus(s).is_empty() {
                refute(entries, q, s, level, work);
            }
            Said::No(s)
        }
        said => said,
    }
}

// What the list of the largest sets of promises that can be kept says, if it has room; if it has not, a solution may be among
// those that are listed.
#[cycle(world)]
fn by_list(entries: &[u64], q: Question, all: Set, level: Level, work: &mut [u64]) -> Said
    requires { ProblemAsked (problem_of entries.now q) all level.depth level.size work.old }
    ensures { SaidIs (problem_of entries.now q) result × Remembers (wide_in entries.now) level.depth level.size work.new }
{
    let base = closed(entries, q).intersection(all);
    match largest(entries, q, base, all.minus(base), 0, level, work) {
        Ok(k) => {
            if selected(entries, q, all, k, level, work) {
                return Said::Yes;
            }
            Said::No(blamed_behind(entries, q, k, level.size, work))
        }
        Err(full) => {
            if selected(entries, q, all, full.listed, level, work) {
                return Said::Yes;
            }
            Said::Nothing
        }
    }
}

// What a list of sets that weights ask for says. A solution among them is one. Weights that refute them, and that no other set
// was found to stand against, speak of few needs and limits; if those alone have no solution, all have none.
#[cycle(world)]
fn by_few(entries: &[u64], q: Question, all: Set, level: Level, work: &mut [u64]) -> Said
    requires { ProblemAsked (problem_of entries.now q) all level.depth level.size work.old }
    ensures { SaidIs (problem_of entries.now q) result × Remembers (wide_in entries.now) level.depth level.size work.new }
{
    match columns(entries, q, all, level, work) {
        Guess::Among(k) => {
            if selected(entries, q, all, k, level, work) {
                return Said::Yes;
            }
            by_more(entries, q, all, level, work)
        }
        Guess::Without(s) => {
            if refute(entries, q, s, level, work) {
                return Said::No(s);
            }
            Said::Nothing
        }
        Guess::Nothing => Said::Nothing,
    }
}

// What more sets say, where those that weights ask for give no solution and no weights refute them: besides those, one that is
// grown from each promise. They are listed anew, since the search for a solution has taken up the words behind the list. If they
// give none either, needs are served greedily in other orders.
#[cycle(world)]
fn by_more(entries: &[u64], q: Question, all: Set, level: Level, work: &mut [u64]) -> Said
    requires { ProblemAsked (problem_of entries.now q) all level.depth level.size work.old }
    ensures { SaidIs (problem_of entries.now q) result × Remembers (wide_in entries.now) level.depth level.size work.new }
{
    let Guess::Among(k) = columns(entries, q, all, level, work) else {
        return Said::Nothing;
    };
    let listed = extend(entries, q, all, k, level, work);
    if selected(entries, q, all, listed, level, work) {
        return Said::Yes;
    }
    if anew(entries, q, all, level, work) {
        return Said::Yes;
    }
    Said::Nothing
}

// Whether a solution is found greedily in one of several orders: with the needs below each entry first.
#[cycle(world)]
fn anew(entries: &[u64], q: Question, all: Set, level: Level, work: &mut [u64]) -> bool
    requires { ProblemAsked (problem_of entries.now q) all level.depth level.size work.old }
    ensures { GreedyIs (problem_of entries.now q) level.depth level.size work.new result }
{
    let mut rest = all;
    while let Some(i) = rest.highest() {
        rest = rest.without(i);
        if greedy(entries, q, all, rest, level, work) {
            return true;
        }
    }
    false
}

// Lists more sets behind k others, one that is grown from each promise, and tells how many are listed then.
#[cycle(world)]
fn extend(entries: &[u64], q: Question, all: Set, k: usize, level: Level, work: &mut [u64]) -> usize
    requires { ExtendAsked (problem_of entries.now q) all k level.depth level.size work.old }
    ensures { FitList (problem_of entries.now q) result level.depth level.size work.new }
{
    let mut listed = k;
    let mut rest = all;
    while let Some(i) = rest.highest() {
        let others = rest.without(i);
        let one = rest.minus(others);
        let set = seed(entries, q, all, one, others, level, work);
        listed = also_new(entries, set, listed, level.size, work);
        rest = others;
    }
    listed
}

// A set grown by the limits that allow none, then by these promises and those, and then by all.
#[cycle(world)]
fn seed(
    entries: &[u64],
    q: Question,
    all: Set,
    first: Set,
    second: Set,
    level: Level,
    work: &mut [u64],
) -> Set
    requires { ProblemAsked (problem_of entries.now q) all level.depth level.size work.old × Within (member first) (member all) × Within (member second) (member all) }
    ensures { GrownIs (problem_of entries.now q) level.depth level.size work.old work.new result }
{
    let base = closed(entries, q).intersection(all);
    let low = grown(entries, q, Set::empty(), base, level, work);
    let one = grown(entries, q, low, first, level, work);
    let two = grown(entries, q, one, second, level, work);
    grown(entries, q, two, all, level, work)
}

// Whether the needs and limits in a set are found to have no solution; that is learnt (known as a nogood).
#[cycle(world)]
fn refute(entries: &[u64], q: Question, s: Set, level: Level, work: &mut [u64]) -> bool
    requires { RefuteAsked (problem_of entries.now q) level.depth level.size work.old }
    ensures { (result ≡ true → Solvable (problem_of entries.now q) → ⊥) × Remembers (wide_in entries.now) level.depth level.size work.new }
{
    let p = narrowed(q, s);
    match by_list(entries, p, asking(entries, p), level, work) {
        Said::No(_) => {
            learn_refuted(entries, p, level, work);
            true
        }
        _ => false,
    }
}

// Lists sets, each of which stands against the weights that refute those before it: until there are no such weights, or no
// set is found that stands against them (known as column generation).
#[cycle(world)]
fn columns(entries: &[u64], q: Question, all: Set, level: Level, work: &mut [u64]) -> Guess
    requires { ProblemAsked (problem_of entries.now q) all level.depth level.size work.old }
    ensures { GuessIs (problem_of entries.now q) level.depth level.size work.new result }
{
    let mut k: usize = 0;
    while let Some(r) = weighs(entries, q, k, level, work) {
        let prices = prices_behind(entries, q, k, r, level.size, work);
        let set = column(entries, q, all, prices, level, work);
        if !pays(prices, set) {
            return Guess::Without(blamed(entries, q, weighted(prices)));
        }
        let Ok(more) = also(entries, set, k, level.size, work) else {
            return Guess::Nothing;
        };
        k = more;
    }
    Guess::Among(k)
}

// A set grown by the limits that allow none and then by what weighs most; if it does not pay, one that is grown from an entry
// that weighs something, whichever pays first (known as pricing a column).
#[cycle(world)]
fn column(
    entries: &[u64],
    q: Question,
    all: Set,
    prices: Prices,
    level: Level,
    work: &mut [u64],
) -> Set
    requires { ProblemAsked (problem_of entries.now q) all level.depth level.size work.old }
    ensures { GrownIs (problem_of entries.now q) level.depth level.size work.old work.new result }
{
    let base = closed(entries, q).intersection(all);
    let low = grown(entries, q, Set::empty(), base, level, work);
    let mut set = grown_by(entries, q, low, all, prices, level, work);
    let mut rest = weighted(prices).intersection(all);
    while !pays(prices, set) {
        let Some(i) = rest.highest() else {
            return set;
        };
        let others = rest.without(i);
        let start = grown(entries, q, low, rest.minus(others), level, work);
        set = grown_by(entries, q, start, all, prices, level, work);
        rest = others;
    }
    set
}

// Whether a solution is found by serving one need after the other, those that come first before others, each with a set that is
// grown as far as it can be kept: first by the need, then by limits without room, by unmet needs, and by all. Where that does not
// get on, nothing is known.
#[cycle(world)]
fn greedy(
    entries: &[u64],
    q: Question,
    all: Set,
    first: Set,
    level: Level,
    work: &mut [u64],
) -> bool
    requires { ProblemAsked (problem_of entries.now q) all level.depth level.size work.old }
    ensures { GreedyIs (problem_of entries.now q) level.depth level.size work.new result }
{
    let mut slots = 0;
    while !met(entries, q, all, work, slots) {
        let open = unmet(entries, q, work, slots).intersection(all);
        let full = used_up(entries, q, work, slots).intersection(all);
        let one = grown(entries, q, Set::empty(), open.foremost(first), level, work);
        let safe = grown(entries, q, one, full, level, work);
        let wide = grown(entries, q, safe, open, level, work);
        let set = grown(entries, q, wide, all, level, work);
        let m = useful(entries, q, set, work, slots);
        if m == 0 {
            return false;
        }
        put_slot(work, slots, set, m);
        slots += 1;
    }
    true
}

// A set grown by each member of another one beside which it can be kept.
#[cycle(world)]
fn grown(entries: &[u64], q: Question, low: Set, free: Set, level: Level, work: &mut [u64]) -> Set
    requires { GrowAsked (problem_of entries.now q) low free level.depth level.size work.old }
    ensures { GrownIs (problem_of entries.now q) level.depth level.size work.old work.new result }
{
    grown_by(entries, q, low, free, flat(), level, work)
}

// The same, by those that weigh most first.
#[cycle(world)]
fn grown_by(
    entries: &[u64],
    q: Question,
    low: Set,
    free: Set,
    prices: Prices,
    level: Level,
    work: &mut [u64],
) -> Set
    requires { GrowAsked (problem_of entries.now q) low free level.depth level.size work.old }
    ensures { GrownIs (problem_of entries.now q) level.depth level.size work.old work.new result }
{
    let mut set = low;
    let mut rest = free;
    while let Some(i) = heaviest(prices, rest).highest() {
        rest = rest.without(i);
        let more = set.with(i);
        if keeps(entries, q, more, level, work) {
            set = more;
        }
    }
    set
}

// Whether the needs and limits of a relation have a solution, without a list: the search asks of each set that it comes to
// whether it can be kept.
#[cycle(world)]
fn probe(entries: &[u64], q: Question, all: Set, level: Level, work: &mut [u64]) -> bool
    requires { ProblemAsked (problem_of entries.now q) all level.depth level.size work.old }
    ensures { Answers result (Solvable (problem_of entries.now q)) × Remembers (wide_in entries.now) level.depth level.size work.new }
{
    let mut at = start(all);
    loop {
        match search(entries, q, all, &mut work[..level.size], at) {
            Step::Found => return true,
            Step::Failed => return false,
            Step::Ask(asked) => {
                at = if keeps(entries, q, asked.set, level, work) {
                    take(&mut work[..level.size], all, asked)
                } else {
                    skip(all, asked)
                };
            }
        }
    }
}

// Lists the largest sets that can be kept (known as maximal satisfiable subsets), of those that have all of `low` and beyond that
// only members of `free`: behind the k that are listed, and but for sets that have no need or are inside a listed one. Where not
// all can be kept, the members of a core cannot: a set that can be kept leaves out the highest of them, or has it and leaves out
// another one.
#[cycle(world)]
fn largest(
    entries: &[u64],
    q: Question,
    low: Set,
    free: Set,
    k: usize,
    level: Level,
    work: &mut [u64],
) -> Result<usize, Full>
    requires { ListAsked (problem_of entries.now q) (member low) (member free) k level.depth level.size work.old }
    ensures { ListingIs (problem_of entries.now q) (member low) (either (member low) (member free)) k level.depth level.size
        work.old work.new result }
{
    let high = low.union(free);
    if !has_need(entries, q, high) {
        return Ok(k);
    }
    if known(entries, high, k, level.size, work) {
        return Ok(k);
    }
    if keeps(entries, q, high, level, work) {
        return also(entries, high, k, level.size, work);
    }
    let mut core = core_of(entries, q, low, free, level, work);
    let mut had = low;
    let mut left = free;
    let mut listed = k;
    while let Some(i) = core.highest() {
        left = left.without(i);
        listed = largest(entries, q, had, left, listed, level, work)?;
        had = had.with(i);
        core = core.without(i);
    }
    Ok(listed)
}

// A part of `free` that cannot be kept beside `low`, where all of it cannot (known as an unsatisfiable core): members are left out
// as long as that is so.
#[tactic(auto, using(crate::proofs::Cores::fewer_left))]
#[cycle(world)]
fn core_of(entries: &[u64], q: Question, low: Set, free: Set, level: Level, work: &mut [u64]) -> Set
    requires { CoreAsked (problem_of entries.now q) (member low) (member free) level.depth level.size work.old }
    ensures { CoreIs (problem_of entries.now q) (member low) (member free) (member result) level.depth level.size work.old work.new }
{
    let mut core = free;
    let mut rest = free;
    while let Some(i) = rest.highest() {
        rest = rest.without(i);
        let fewer = core.without(i);
        if !keeps(entries, q, low.union(fewer), level, work) {
            core = fewer;
        }
    }
    core
}

// Whether a need and a limit are found that exclude each other: the need asks for more than the limit allows, and no
// successor keeps both promises beside those of limits that allow none. That is learnt.
#[cycle(world)]
fn opposed(entries: &[u64], q: Question, all: Set, level: Level, work: &mut [u64]) -> bool
    requires { ProblemAsked (problem_of entries.now q) all level.depth level.size work.old }
    ensures { Opposed (problem_of entries.now q) level.depth level.size work.old work.new result }
{
    let base = closed(entries, q).intersection(all);
    let mut needs = all;
    let mut limits = all;
    while let Some(i) = needs.highest() {
        match limits.highest() {
            Some(j) => {
                limits = limits.without(j);
                if exceeds(entries, q, i, j) {
                    let both = Set::pair(i, j).union(base);
                    if !keeps(entries, q, both, level, work) {
                        learn_refuted(entries, narrowed(q, both), level, work);
                        return true;
                    }
                }
            }
            None => {
                needs = needs.without(i);
                limits = all;
            }
        }
    }
    false
}

// Whether some world keeps the promises of a set, unless the answer is known: that some world makes the promised parts true,
// or false, is the same question.
#[cycle(world)]
fn keeps(entries: &[u64], q: Question, promises: Set, level: Level, work: &mut [u64]) -> bool
    requires { PromisesAsked (problem_of entries.now q) promises level.depth level.size work.old }
    ensures { Kept (problem_of entries.now q) promises level.depth level.size work.old work.new result }
{
    let wanted = parts_of(entries, q, promises, level.depth - 1);
    let from = level.memory();
    if let Some(known) = recall(work, from, wanted.yes, wanted.no, false) {
        return known;
    }
    let found = deeper(entries, q, promises, level, work);
    remember(work, from, wanted.yes, wanted.no, false, found);
    found
}

// The same by looking for one: a world one less deep, worked in the rest of the lent words.
#[cycle(world)]
fn deeper(entries: &[u64], q: Question, promises: Set, level: Level, work: &mut [u64]) -> bool
    requires { PromisesAsked (problem_of entries.now q) promises level.depth level.size work.old }
    ensures { Kept (problem_of entries.now q) promises level.depth level.size work.old work.new result }
{
    let Some(v) = promised(entries, q, promises, level.depth - 1) else {
        return false;
    };
    world(entries, v, ALL, level.deeper(), &mut work[level.size..])
}
