// Questions about a table, which is unpacked once for all questions of a call.
ghost use Rattle.std.specs.Prelude.{◌≡◌, ◌/◌, ◌≤◌, length, take};
ghost use Rattle.semantics.specs.Truth.{Satisfiable};
ghost use Rattle.semantics.specs.Answer.{Answers};
ghost use Rattle.sets.specs.Set.{member};
ghost use Rattle.faults.specs.Verdict.{accepted};
ghost use Rattle.table.specs.Check.{table_verdict};
ghost use Rattle.table.specs.Entry.{size};
ghost use Rattle.table.specs.Formulas.{formula_at};
ghost use Rattle.table.specs.Space.{table_work};
ghost use Rattle.tableau.specs.Wants.{Sat};
ghost use Rattle.wide.specs.Wide.{wide_in, Widened};
ghost use Rattle.decision.specs.Ask.{Prepared, There, AllThere};

use cases::level::Level;
use sets::Set;

// The entries of the table as they are asked about. What the words held is forgotten.
pub fn prepare(table: &[u8], level: Level, words: &mut [u64]) -> [u64; 64]
    requires { (table_verdict table.now ≡ accepted) × (level.size ≡ table_work table.now 0 / 2) × (table_work table.now level.depth ≤ length words.old) }
    ensures { Widened table.now (size table.now) result
        × Prepared (wide_in (take (size table.now) result)) (size table.now) level.depth level.size words.new }
{
    let entries = wide::widen(table);
    memory::forget(words, level.memory());
    entries
}

// Whether some world makes the entries of one set true and those of the other false. What the words remember then helps the
// next question.
pub fn ask(entries: &[u64], yes: Set, no: Set, level: Level, words: &mut [u64]) -> bool
    requires { Prepared (wide_in entries.now) (length entries.now) level.depth level.size words.old
        × AllThere (wide_in entries.now) (length entries.now) level.depth (member yes) (member no) }
    ensures { Answers result (Sat (wide_in entries.now) (member yes) (member no))
        × Prepared (wide_in entries.now) (length entries.now) level.depth level.size words.new }
{
    satisfy::ask::satisfiable(entries, yes, no, level, words)
}

// Whether entry e is possible.
pub fn possible(entries: &[u64], e: usize, level: Level, words: &mut [u64]) -> bool
    requires { Prepared (wide_in entries.now) (length entries.now) level.depth level.size words.old
        × There (wide_in entries.now) (length entries.now) level.depth e }
    ensures { Answers result (Satisfiable (formula_at (wide_in entries.now) e))
        × Prepared (wide_in entries.now) (length entries.now) level.depth level.size words.new }
{
    let yes = Set::empty().with(e);
    let no = Set::empty();
    ask(entries, yes, no, level, words)
}
