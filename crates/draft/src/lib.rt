// Drafts to return to (document 02, P9): a fresh draft and its steps. Each step refuses a draft that no sequence of steps gives.
// A draft is by value: `history` says what it holds.
#![tactic(auto, using(faults::proofs::Tests::tests))]

ghost use Rattle.faults.specs.Verdict.{refusal};
ghost use Rattle.history.specs.History.{fresh};
ghost use Rattle.history.specs.Shown.{Shows};
ghost use Rattle.history.specs.Answered.{Answers};

use faults::Verdict;
use history::{Draft, NOT_SAVED, Step};

pub mod checking;
mod stepping;

// What a step gives: the draft, and whether the step is taken. A refused step leaves the draft as it was.
#[derive(Clone, Copy, Debug, PartialEq, Eq)]
pub struct Stepped {
    pub draft: Draft,
    pub verdict: Verdict,
}

// An empty draft with no name saved.
#[tactic(auto, unfolding(history::specs::Shown::draft_of, history::specs::Shown::listed))]
pub fn new() -> Draft
    ensures { Shows result fresh }
{
    Draft {
        entries: [0; 64],
        saved: [NOT_SAVED; 16],
        count: 0,
    }
}

// Takes a step.
pub fn step(draft: Draft, step: Step) -> Stepped
    ensures { Answers Shows step draft result.draft (refusal result.verdict) }
{
    match checking::check_step(draft, step) {
        Ok(()) => Stepped {
            draft: stepping::taken(draft, step),
            verdict: Ok(()),
        },
        Err(fault) => Stepped {
            draft,
            verdict: Err(fault),
        },
    }
}
