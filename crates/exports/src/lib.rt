// The calls open to others, for C and Rust: `hurnavis.h` declares them. A call returns 0, or the number of its refusal, and
// writes its answer to a place that is lent, which a refusal leaves as it was. A slice is a pointer and a length in C.
#![tactic(auto)]

ghost use Rattle.std.specs.Prelude.{◌≡◌, length, MatchResult};
ghost use Rattle.faults.specs.Verdict.{number_of, refusal};
ghost use Rattle.table.specs.Check.{table_verdict};
ghost use Rattle.truth_table.specs.Board.{board_verdict, BoardAfter};
ghost use Rattle.decision.specs.Call.{pair_there, pair_work};
ghost use Rattle.history.specs.declared.Step.TheVariants.{Add, Save, Back};
ghost use Rattle.history.specs.Shown.{BytesShow};
ghost use Rattle.history.specs.Answered.{Begins, Answers};
ghost use Rattle.exports.specs.Status.{placed, DecisionTold, MarkTold, ReadingTold};

use faults::{Fault, Numbered};
use history::Step;

// The status of a call. Its answer goes to the place, which a refusal leaves as it was.
fn status<T: Copy>(answer: Result<T, Fault>, place: &mut T) -> u32
    ensures { MatchResult answer (λ x. (result ≡ 0) × (place.new ≡ x)) (λ fault. (result ≡ number_of fault) × (place.new ≡ place.old)) }
{
    match answer {
        Ok(found) => {
            *place = found;
            0
        }
        Err(fault) => fault.number() as u32,
    }
}

// Whether the table is accepted.
#[unsafe(no_mangle)]
pub extern "C" fn hurnavis_check_table(table: &[u8]) -> u32
    ensures { result ≡ refusal (table_verdict table.now) }
{
    hurnavis::check_table(table).number() as u32
}

// The words that a mark of two entries has to be lent; for a decision one entry is given twice.
#[unsafe(no_mangle)]
pub extern "C" fn hurnavis_work_words(
    table: &[u8],
    model: usize,
    answer: usize,
    needed: &mut u64,
) -> u32
    ensures { (result ≡ refusal (pair_there table.now model answer))
        × (needed.new ≡ placed result (pair_work table.now model answer) needed.old) }
{
    status(
        hurnavis::work_words(table, model, answer).map(|w| w as u64),
        needed,
    )
}

// Fills the words with the truth table of the structure.
#[unsafe(no_mangle)]
pub extern "C" fn hurnavis_board(table: &[u8], structure: &[u8], words: &mut [u64]) -> u32
    ensures { (result ≡ refusal (board_verdict table.now structure.now (length words.old)))
        × BoardAfter table.now structure.now words.old
        (board_verdict table.now structure.now (length words.old)) words.new }
{
    hurnavis::board(table, structure, words).number() as u32
}

// 1 if the entry is possible, 0 if it is impossible.
#[unsafe(no_mangle)]
pub extern "C" fn hurnavis_decide(
    table: &[u8],
    entry: usize,
    words: &mut [u64],
    possible: &mut u8,
) -> u32
    ensures { DecisionTold table.now entry words.old words.new
        possible.old possible.new result }
{
    status(
        hurnavis::decide(table, entry, words).map(|found| found.number()),
        possible,
    )
}

// 0 equal, 1 narrower, 2 wider, 3 crossing, 4 an impossible answer.
#[unsafe(no_mangle)]
pub extern "C" fn hurnavis_mark(
    table: &[u8],
    model: usize,
    answer: usize,
    words: &mut [u64],
    mark: &mut u8,
) -> u32
    ensures { MarkTold table.now model answer words.old words.new
        mark.old mark.new result }
{
    status(
        hurnavis::mark(table, model, answer, words).map(|found| found.number()),
        mark,
    )
}

// Reads a typed answer and writes its table; how many entries it has.
#[unsafe(no_mangle)]
pub extern "C" fn hurnavis_read_text(text: &[u8], table: &mut [u8], entries: &mut u8) -> u32
    ensures { ReadingTold text.now table.old table.new
        entries.old entries.new result }
{
    status(hurnavis::read_text(text, table).map(|n| n as u8), entries)
}

// Makes the 273 bytes a fresh draft.
#[unsafe(no_mangle)]
pub extern "C" fn hurnavis_draft_new(draft: &mut [u8]) -> u32
    ensures { Begins draft.old draft.new result }
{
    draft_bytes::begin(draft).number() as u32
}

// Adds an entry to the draft.
#[unsafe(no_mangle)]
pub extern "C" fn hurnavis_draft_add(draft: &mut [u8], entry: u32) -> u32
    ensures { Answers BytesShow (Add entry) draft.old draft.new result }
{
    draft_bytes::step(draft, Step::Add(entry)).number() as u32
}

// Saves the draft under a name.
#[unsafe(no_mangle)]
pub extern "C" fn hurnavis_draft_save(draft: &mut [u8], name: u8) -> u32
    ensures { Answers BytesShow (Save name) draft.old draft.new result }
{
    draft_bytes::step(draft, Step::Save(name)).number() as u32
}

// Comes back to what was saved under a name.
#[unsafe(no_mangle)]
pub extern "C" fn hurnavis_draft_back(draft: &mut [u8], name: u8) -> u32
    ensures { Answers BytesShow (Back name) draft.old draft.new result }
{
    draft_bytes::step(draft, Step::Back(name)).number() as u32
}
