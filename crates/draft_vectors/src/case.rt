// A case: steps from a fresh draft on, each answer and the draft at the end compared with what document 02, P9, gives.
use crate::letters::{entry, number};
use draft::Stepped;
use faults::Numbered;
use history::Draft;
use std::array;
use vectors::tally::Tally;

// A draft that is different counts as this number, which is no refusal's.
const DIFFERENT: u64 = 200;

// The draft after the steps so far.
#[derive(Clone, Copy)]
pub struct Ended {
    pub draft: Draft,
    pub tally: Tally,
}

// A step with the number that it is to answer; a refused one leaves the draft as it was.
fn answers(tally: Tally, before: Draft, step: Stepped, expected: u8) -> Tally {
    let is_kept = step.verdict.is_ok() || step.draft == before;
    let got = u64::from(step.verdict.number());
    tally.case(if is_kept { got } else { DIFFERENT }, u64::from(expected))
}

// `S` and `B` save under a name and come back to it; any other letter adds an entry.
fn step(draft: Draft, letter: u8, operand: u8) -> Stepped {
    match letter {
        b'S' => hurnavis::draft_save(draft, number(operand)),
        b'B' => hurnavis::draft_back(draft, number(operand)),
        _ => hurnavis::draft_add(draft, entry(operand)),
    }
}

// Steps on a draft. Four letters are a step: what it is, its operand, the number that it is to answer, and a space.
pub fn from(before: Tally, start: Draft, steps: &[u8]) -> Ended {
    let mut tally = before;
    let mut draft = start;
    for letters in steps.chunks_exact(4) {
        let taken = step(draft, letters[0], letters[1]);
        tally = answers(tally, draft, taken, number(letters[2]));
        draft = taken.draft;
    }
    Ended { draft, tally }
}

// Steps on a fresh draft.
pub fn run(before: Tally, steps: &[u8]) -> Ended {
    from(before, hurnavis::draft_new(), steps)
}

// Whether the draft has these entries, with 0 behind them, and these saved lengths; a name with no letter is not saved.
fn shows(draft: Draft, entries: &[u8], saved: &[u8]) -> bool {
    let words = array::from_fn(|i| entries.get(i).map_or(0, |letter| entry(*letter)));
    let lengths = array::from_fn(|name| number(*saved.get(name).unwrap_or(&b'.')));
    draft.entries == words && draft.saved == lengths && usize::from(draft.count) == entries.len()
}

// The draft that steps give is to have these entries and saved lengths.
pub fn gives(last: Ended, entries: &[u8], saved: &[u8]) -> Tally {
    let tally = last.tally;
    if shows(last.draft, entries, saved) {
        return tally.case(0, 0);
    }
    tally.case(DIFFERENT, 0)
}

pub fn ends(before: Tally, steps: &[u8], entries: &[u8], saved: &[u8]) -> Tally {
    gives(run(before, steps), entries, saved)
}
