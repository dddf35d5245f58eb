// The calls open to others, in the order of use. Each refuses bad input instead of requiring good input, and its contract
// fixes the result, the refusal and all that was lent, in the words of specs/ of the crates below.
#![tactic(auto)]

ghost use Rattle.std.specs.Prelude.{◌≡◌, length};
ghost use Rattle.table.specs.Check.{table_verdict};
ghost use Rattle.decision.specs.Call.{NeededIs};
ghost use Rattle.decision.specs.Decide.{DecisionIs};
ghost use Rattle.mark.specs.Mark.{MarkingIs};
ghost use Rattle.truth_table.specs.Board.{board_verdict, BoardAfter};
ghost use Rattle.typed.specs.Reading.{ReadingIs};
ghost use Rattle.faults.specs.Verdict.{refusal};
ghost use Rattle.history.specs.declared.Step.TheVariants.{Add, Save, Back};
ghost use Rattle.history.specs.History.{fresh};
ghost use Rattle.history.specs.Shown.{Shows};
ghost use Rattle.history.specs.Answered.{Answers};
ghost use Rattle.draft_bytes.specs.Table.{TableIs};

use draft::Stepped;
use faults::{Fault, Verdict};
use history::{Draft, Step};
use mark::Mark;

// Whether a table is accepted; if not, its first fault in document 01's order, a number from 1 to 4.
pub fn check_table(table: &[u8]) -> Verdict
    ensures { result ≡ table_verdict table.now }
{
    table::checking::check(table)
}

// Reads a typed answer (document 02, P1) and writes its table: operands before their sign, left before right, so that the last entry
// means what the text says. Answers how many entries it wrote; the bytes behind them stay as they were. Refuses with 11 for a text
// outside the grammar, 12 for one over a limit, or 10 for too few bytes, and then leaves all bytes as they were.
pub fn read_text(text: &[u8], table: &mut [u8]) -> Result<usize, Fault>
    ensures { ReadingIs text.now table.old table.new result }
{
    typed::read(text, table)
}

// The words that a mark of two entries has to be lent, document 01's W; for a decision one entry is given twice. Refuses with a
// number from 1 to 4, or 9 for an entry that is not there.
pub fn work_words(table: &[u8], model: usize, answer: usize) -> Result<usize, Fault>
    ensures { NeededIs table.now model answer result }
{
    decision::call::words_for(table, model, answer)
}

// Writes the truth table of a packed structure (document 01: the board), one word for each entry of the table: bit w is 1
// exactly when the entry is true at the world w. Refuses with a number from 1 to 8, or 10 for too few words, and then
// leaves the words as they were; the words behind the entries stay as they were in any case.
pub fn board(table: &[u8], structure: &[u8], words: &mut [u64]) -> Verdict
    ensures { (result ≡ board_verdict table.now structure.now (length words.old))
        × BoardAfter table.now structure.now words.old result words.new }
{
    truth_table::board(table, structure, words)
}

// Whether entry e of a table is possible: some world of some finite structure makes it true, whatever its size. Works in the
// first W words (document 01) and leaves 0 in them; the words behind stay as they were. Refuses with a number from 1 to 4,
// 9 for an entry that is not there, or 10 for too few words, and then leaves all words as they were.
pub fn decide(table: &[u8], e: usize, words: &mut [u64]) -> Result<bool, Fault>
    ensures { DecisionIs table.now e words.old words.new result }
{
    decision::decide(table, e, words)
}

// The mark of the answer's entry beside the model's, over all worlds of all finite structures: equal, narrower, wider or
// crossing. One entry may be both. Works in the first W words, W by the greater depth of the two, and leaves 0 in them; the
// words behind stay as they were. Refuses as `decide` does, 9 for either entry, and then leaves all words as they were.
pub fn mark(table: &[u8], model: usize, answer: usize, words: &mut [u64]) -> Result<Mark, Fault>
    ensures { MarkingIs table.now model answer words.old words.new result }
{
    mark::mark_pair(table, model, answer, words)
}

// An empty draft with no name saved (document 02, P9). The steps below take a draft and give the next one.
pub fn draft_new() -> Draft
    ensures { Shows result fresh }
{
    draft::new()
}

// Adds an entry, packed as in a table. Refuses with 16 for a draft that no sequence of steps gives, 1 for a 65th entry, or 2, 3 or 4
// for a bad one; a refused step gives back the draft as it was.
pub fn draft_add(draft: Draft, entry: u32) -> Stepped
    ensures { Answers Shows (Add entry) draft result.draft (refusal result.verdict) }
{
    draft::step(draft, Step::Add(entry))
}

// Saves the draft under a name from 0 to 15; a used name is replaced. Refuses with 16 for a draft that no sequence gives or a name
// over 15.
pub fn draft_save(draft: Draft, name: u8) -> Stepped
    ensures { Answers Shows (Save name) draft result.draft (refusal result.verdict) }
{
    draft::step(draft, Step::Save(name))
}

// Comes back to what was saved under a name, and forgets names saved with more entries. Refuses as `draft_save` does, and for a name
// that is not saved.
pub fn draft_back(draft: Draft, name: u8) -> Stepped
    ensures { Answers Shows (Back name) draft result.draft (refusal result.verdict) }
{
    draft::step(draft, Step::Back(name))
}

// Writes the entries of a draft as the bytes of a table for the other calls, and answers how many there are; the bytes behind stay as
// they were. Refuses with 16 for a draft that no sequence gives, or 10 for too few bytes, and then leaves all bytes as they were.
pub fn draft_table(draft: Draft, table: &mut [u8]) -> Result<usize, Fault>
    ensures { TableIs draft table.old table.new result }
{
    draft_bytes::table_of(draft, table)
}
