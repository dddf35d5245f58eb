// The mark: how an answer stands to a model, two entries of one table.
#![tactic(auto)]

ghost use Rattle.std.specs.Prelude.{◌≡◌, ◌<◌, ◌≤◌, length};
ghost use Rattle.semantics.specs.Formula.{Formula};
ghost use Rattle.semantics.specs.Truth.{Satisfiable};
ghost use Rattle.semantics.specs.Answer.{Answers};
ghost use Rattle.faults.specs.Verdict.{accepted};
ghost use Rattle.table.specs.Check.{table_verdict};
ghost use Rattle.table.specs.Entry.{entry_in, size};
ghost use Rattle.table.specs.Formulas.{formula_at};
ghost use Rattle.wide.specs.Wide.{wide_in};
ghost use Rattle.decision.specs.Ask.{Prepared, There};
ghost use Rattle.decision.specs.Call.{pair_work, Cleared};
ghost use Rattle.mark.specs.Pair.{PairAsked, PairPrepared};
ghost use Rattle.mark.specs.Mark.{Beyond, MarkIs, number_of, MarkingIs};

use cases::level::Level;
use decision::ask::{ask, possible, prepare};
use decision::call::{checked, clear, pair_depth};
use faults::{Fault, Numbered};
use sets::Set;

// In the order of their numbers, from 0: document 01's four, and document 02's for an answer that is not possible.
#[derive(Clone, Copy, Debug, PartialEq, Eq)]
pub enum Mark {
    Equal,
    Narrower,
    Wider,
    Crossing,
    Impossible,
}

// The number that documents 01 and 02 list for the mark.
impl Numbered for Mark {
    ghost number_of = { number_of };

    fn number(self) -> u8 {
        self as u8
    }
}

impl Mark {
    // Whether the answer that has the mark is possible.
    pub fn possible(self) -> bool
        ensures { (model answer : Formula) → MarkIs model answer self → Answers result (Satisfiable answer) }
    {
        match self {
            Mark::Equal | Mark::Narrower | Mark::Wider | Mark::Crossing => true,
            Mark::Impossible => false,
        }
    }
}

// Whether some world makes entry e true and the other false.
fn beyond(entries: &[u64], e: usize, other: usize, level: Level, words: &mut [u64]) -> bool
    requires { PairPrepared (wide_in entries.now) (length entries.now) e other level.depth level.size words.old }
    ensures { Answers result (Beyond (formula_at (wide_in entries.now) e) (formula_at (wide_in entries.now) other))
        × Prepared (wide_in entries.now) (length entries.now) level.depth level.size words.new }
{
    let yes = Set::empty().with(e);
    let no = Set::empty().with(other);
    ask(entries, yes, no, level, words)
}

// Whether the answer is possible. Where it goes beyond the model (gained) it is, and nothing is asked.
fn answer_possible(
    entries: &[u64],
    answer: usize,
    gained: bool,
    level: Level,
    words: &mut [u64],
) -> bool
    requires { Prepared (wide_in entries.now) (length entries.now) level.depth level.size words.old
        × There (wide_in entries.now) (length entries.now) level.depth answer }
    ensures { ((model : Formula) → Answers gained (Beyond (formula_at (wide_in entries.now) answer) model)
        → Answers result (Satisfiable (formula_at (wide_in entries.now) answer)))
        × Prepared (wide_in entries.now) (length entries.now) level.depth level.size words.new }
{
    if gained {
        return true;
    }
    possible(entries, answer, level, words)
}

// The mark of a possible answer by whether it goes beyond the model (gained), and the model beyond it (lost).
fn mark_of(gained: bool, lost: bool) -> Mark
    ensures { (model answer : Formula) → Satisfiable answer → Answers gained (Beyond answer model) → Answers lost (Beyond model answer)
        → MarkIs model answer result }
{
    match (gained, lost) {
        (false, false) => Mark::Equal,
        (false, true) => Mark::Narrower,
        (true, false) => Mark::Wider,
        (true, true) => Mark::Crossing,
    }
}

// The mark of two entries. The last question is not asked where the answer is impossible.
fn compare(entries: &[u64], model: usize, answer: usize, level: Level, words: &mut [u64]) -> Mark
    requires { PairPrepared (wide_in entries.now) (length entries.now) model answer level.depth level.size words.old }
    ensures { MarkIs (formula_at (wide_in entries.now) model) (formula_at (wide_in entries.now) answer) result }
{
    let gained = beyond(entries, answer, model, level, words);
    if !answer_possible(entries, answer, gained, level, words) {
        return Mark::Impossible;
    }
    let lost = beyond(entries, model, answer, level, words);
    mark_of(gained, lost)
}

// The mark of two entries of a table, worked in the words, which are W or more.
fn compared(table: &[u8], model: usize, answer: usize, depth: usize, words: &mut [u64]) -> Mark
    requires { PairAsked table.now model answer depth (length words.old) }
    ensures { MarkIs (formula_at (entry_in table.now) model) (formula_at (entry_in table.now) answer) result }
{
    let n = table.len() / 4;
    let size = table::space::work_words(table, 0) / 2;
    let level = Level { depth, size };
    let entries = prepare(table, level, words);
    compare(&entries[..n], model, answer, level, words)
}

// The same, and the words worked in are cleared.
fn marked(table: &[u8], model: usize, answer: usize, words: &mut [u64]) -> Mark
    requires { (table_verdict table.now ≡ accepted) × (model < size table.now) × (answer < size table.now)
        × (pair_work table.now model answer ≤ length words.old) }
    ensures { MarkIs (formula_at (entry_in table.now) model) (formula_at (entry_in table.now) answer) result
        × Cleared (pair_work table.now model answer) words.old words.new }
{
    let depth = pair_depth(table, model, answer);
    let needed = table::space::work_words(table, depth);
    let found = compared(table, model, answer, depth, &mut words[..needed]);
    clear(words, needed);
    found
}

// Marks the answer's entry beside the model's, or refuses and writes nothing. One entry may be both.
pub fn mark_pair(
    table: &[u8],
    model: usize,
    answer: usize,
    words: &mut [u64],
) -> Result<Mark, Fault>
    ensures { MarkingIs table.now model answer words.old words.new result }
{
    checked(table, model, answer, words.len())?;
    Ok(marked(table, model, answer, words))
}
