// The search for a solution of one relation's needs and limits: slots of successors, each described by the promises that
// they keep. It asks nobody whether a set of promises can be kept: it stops and hands the set out, and goes on with the
// answer. The stack of slots is kept in lent words.
#![tactic(auto)]

ghost use Rattle.std.specs.Prelude.{◌≡◌, List, ℕ, suc, ◌+◌, ◌*◌, ◌≤◌, length};
ghost use Rattle.table.specs.Space.{sum_of_grades};
ghost use Rattle.sets.specs.Word.{bit_at};
ghost use Rattle.sets.specs.Set.{member, code, Within};
ghost use Rattle.tableau.specs.Search.{Problem, asking, Met, Fit, potential};
ghost use Rattle.counting.specs.Question.{problem_of, Small};
ghost use Rattle.counting.specs.Stack.{slots_of, slot_at};
ghost use Rattle.counting.specs.Search.{trying, to_do, Standing, At, AskedIs, Nearer, StepIs, TurnIs, Behind};

pub mod bounds;
pub mod question;
pub mod stack;

use packed::item_or;
use question::Question;
use sets::Set;
use std::ops::ControlFlow::{self, Break, Continue};

// Where the search stands: how many slots are on the stack, and the set to try next, if there is one.
#[derive(Clone, Copy)]
pub struct Cursor {
    pub slots: usize,
    pub next: Option<Set>,
}

// What the search asks, with so many slots on the stack: can the promises of the set be kept? If so, this many copies of it are
// to be taken.
#[derive(Clone, Copy)]
pub struct Asked {
    pub slots: usize,
    pub set: Set,
    pub copies: u64,
}

#[derive(Clone, Copy)]
pub enum Step {
    // The slots are a solution.
    Found,
    // There is none.
    Failed,
    // It depends on this.
    Ask(Asked),
}

// The cursor behind a set that has been tried.
fn behind(slots: usize, tried: Set, all: Set) -> Cursor
    requires { Within (member tried) (member all) }
    ensures { Behind all tried slots result }
{
    Cursor {
        slots,
        next: tried.below(all),
    }
}

// Before anything is tried: `all` are the needs and limits.
pub fn start(all: Set) -> Cursor
    ensures { (P : Problem) (words : List ℕ) → Small P → member all ≡ asking P → 2 * sum_of_grades P.entry P.n + 2 ≤ length words
        → At P all words result }
{
    Cursor {
        slots: 0,
        next: Some(all),
    }
}

// No set is left to try: the newest slot gives up a copy, or goes with its last, and the sets below it are tried anew.
fn give_up(words: &mut [u64], newest: usize, all: Set) -> Cursor
    requires { (2 * newest + 2 ≤ length words.old) × Within (bit_at (slot_at words.old newest).code) (member all) }
    ensures { (P : Problem) → Standing P all words.old (suc newest) 0 → (Met P (slots_of words.old (suc newest)) → ⊥)
        → Nearer P all words.new (potential (slots_of words.old (suc newest)) 0) result }
{
    let tried = Set::of_code(item_or(words, 2 * newest, 0));
    let copies = item_or(words, 2 * newest + 1, 0);
    if copies <= 1 {
        return behind(newest, tried, all);
    }
    stack::put_slot(words, newest, tried, copies - 1);
    behind(newest + 1, tried, all)
}

// Asks for the next set if copies of it are of use, and passes it over if not.
fn attempt(
    entries: &[u64],
    q: Question,
    all: Set,
    words: &[u64],
    slots: usize,
    set: Set,
) -> ControlFlow<Step, Cursor>
    requires { At (problem_of entries.now q) all words.now (trying slots set) }
    ensures { TurnIs (problem_of entries.now q) all words.now (to_do words.now (trying slots set)) result }
{
    let copies = bounds::useful(entries, q, set, words, slots);
    if 0 < copies {
        Break(Step::Ask(Asked { slots, set, copies }))
    } else {
        Continue(behind(slots, set, all))
    }
}

// One move of the search.
fn advance(
    entries: &[u64],
    q: Question,
    all: Set,
    words: &mut [u64],
    at: Cursor,
) -> ControlFlow<Step, Cursor>
    requires { At (problem_of entries.now q) all words.old at }
    ensures { TurnIs (problem_of entries.now q) all words.new (to_do words.old at) result }
{
    if bounds::met(entries, q, all, words, at.slots) {
        return Break(Step::Found);
    }
    if let Some(set) = at.next {
        return attempt(entries, q, all, words, at.slots, set);
    }
    let Some(newest) = at.slots.checked_sub(1) else {
        return Break(Step::Failed);
    };
    Continue(give_up(words, newest, all))
}

// Searches until it is done, or has a set to ask for.
pub fn search(entries: &[u64], q: Question, all: Set, words: &mut [u64], from: Cursor) -> Step
    requires { At (problem_of entries.now q) all words.old from }
    ensures { StepIs (problem_of entries.now q) all words.new (to_do words.old from) result }
{
    let mut at = from;
    loop {
        match advance(entries, q, all, words, at) {
            Break(answer) => return answer,
            Continue(next) => at = next,
        }
    }
}

// The set asked for is fit: the copies of it go onto the stack, and the search goes on behind it.
pub fn take(words: &mut [u64], all: Set, asked: Asked) -> Cursor
    requires { Within (member asked.set) (member all) × (2 * asked.slots + 2 ≤ length words.old) }
    ensures { (P : Problem) → AskedIs P all words.old asked → Fit P (code asked.set)
        → Nearer P all words.new (to_do words.old (trying asked.slots asked.set)) result }
{
    stack::put_slot(words, asked.slots, asked.set, asked.copies);
    behind(asked.slots + 1, asked.set, all)
}

// The set asked for is not fit: the search goes on behind it.
pub fn skip(all: Set, asked: Asked) -> Cursor
    requires { Within (member asked.set) (member all) }
    ensures { (P : Problem) (words : List ℕ) → AskedIs P all words asked → (Fit P (code asked.set) → ⊥)
        → Nearer P all words (to_do words (trying asked.slots asked.set)) result }
{
    behind(asked.slots, asked.set, all)
}
