// The decision: whether an entry of a table is possible.
#![tactic(auto)]

ghost use Rattle.std.specs.Prelude.{◌≡◌, ◌<◌, ◌≤◌, length};
ghost use Rattle.semantics.specs.Truth.{Satisfiable};
ghost use Rattle.semantics.specs.Answer.{Answers};
ghost use Rattle.faults.specs.Verdict.{accepted};
ghost use Rattle.table.specs.Check.{table_verdict};
ghost use Rattle.table.specs.Entry.{entry_in, size};
ghost use Rattle.table.specs.Formulas.{formula_at, depth_at};
ghost use Rattle.table.specs.Space.{table_work};
ghost use Rattle.decision.specs.Call.{Cleared};
ghost use Rattle.decision.specs.Decide.{entry_work, DecisionIs};

pub mod ask;
pub mod call;

use ask::{possible, prepare};
use call::{checked, clear, pair_depth};
use cases::level::Level;
use faults::Fault;

// Whether entry e, of this depth, is possible, worked in the words, which are W or more.
fn decided(table: &[u8], e: usize, depth: usize, words: &mut [u64]) -> bool
    requires { (table_verdict table.now ≡ accepted) × (e < size table.now) × (depth_at (entry_in table.now) e ≡ depth)
        × (table_work table.now depth ≤ length words.old) }
    ensures { Answers result (Satisfiable (formula_at (entry_in table.now) e)) }
{
    let n = table.len() / 4;
    let size = table::space::work_words(table, 0) / 2;
    let level = Level { depth, size };
    let entries = prepare(table, level, words);
    possible(&entries[..n], e, level, words)
}

// The same, and the words worked in are cleared.
fn answer(table: &[u8], e: usize, words: &mut [u64]) -> bool
    requires { (table_verdict table.now ≡ accepted) × (e < size table.now) × (entry_work table.now e ≤ length words.old) }
    ensures { Answers result (Satisfiable (formula_at (entry_in table.now) e))
        × Cleared (entry_work table.now e) words.old words.new }
{
    let depth = pair_depth(table, e, e);
    let needed = table::space::work_words(table, depth);
    let found = decided(table, e, depth, &mut words[..needed]);
    clear(words, needed);
    found
}

// Decides entry e of a table: is it possible? Or refuses and writes nothing.
pub fn decide(table: &[u8], e: usize, words: &mut [u64]) -> Result<bool, Fault>
    ensures { DecisionIs table.now e words.old words.new result }
{
    checked(table, e, e, words.len())?;
    Ok(answer(table, e, words))
}
