// The mark sheet of document 01, but for reading and printing: what its input says, and the line that it prints.
#![tactic(auto)]

ghost use Rattle.std.specs.Prelude.{◌≡◌, length};
ghost use Rattle.faults.specs.Verdict.{accepted};
ghost use Rattle.semantics.specs.Truth.{Satisfiable};
ghost use Rattle.table.specs.Entry.{entry_in};
ghost use Rattle.table.specs.Formulas.{formula_at};
ghost use Rattle.semantics.specs.Answer.{Answers};
ghost use Rattle.decision.specs.Decide.{decide_verdict};
ghost use Rattle.sheet.specs.Sheet.{shaped, MarkedIs, SheetIs};

pub mod program;
pub mod text;

use faults::Fault;
use mark::Mark;
use packed::item_or;

// What the sheet says: whether the model is possible, whether the answer is, and the mark.
#[derive(Clone, Copy)]
pub struct Sheet {
    pub model: bool,
    pub answer: bool,
    pub mark: Mark,
}

// Whether the input is a byte n from 1 to 64, 4 x n bytes and two more.
fn is_shaped(input: &[u8]) -> bool
    ensures { result ≡ shaped input.now }
{
    let n = item_or(input, 0, 0) as usize;
    matches!(n, 1..=64) && input.len() == 4 * n + 3
}

// Whether entry e is possible, where the call has no fault.
fn possible(table: &[u8], e: usize, words: &mut [u64]) -> bool
    requires { decide_verdict table.now e (length words.old) ≡ accepted }
    ensures { Answers result (Satisfiable (formula_at (entry_in table.now) e)) }
{
    hurnavis::decide(table, e, words).unwrap()
}

// The sheet for a model's and an answer's entry of a table, worked in 8,192 words.
fn fill(table: &[u8], model: usize, answer: usize) -> Result<Sheet, Fault>
    ensures { MarkedIs table.now model answer result }
{
    let mut words = [0u64; 8192];
    let marked = hurnavis::mark(table, model, answer, &mut words);
    let Ok(mark) = marked else {
        return Err(marked.unwrap_err());
    };
    let model = possible(table, model, &mut words);
    Ok(Sheet {
        model,
        answer: mark.possible(),
        mark,
    })
}

// The sheet for an input, or why it is refused.
pub fn sheet_of(input: &[u8]) -> Result<Sheet, Fault>
    ensures { SheetIs input.now result }
{
    if !is_shaped(input) {
        return Err(Fault::TableLength);
    }
    let end = 4 * item_or(input, 0, 0) as usize + 1;
    let model = item_or(input, end, 0) as usize;
    let answer = item_or(input, end + 1, 0) as usize;
    fill(&input[1..end], model, answer)
}
