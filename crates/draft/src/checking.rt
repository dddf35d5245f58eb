// What a step is refused for: 16 for a draft that no sequence gives, then what the step itself is refused for.
ghost use Rattle.std.specs.Prelude.{◌≡◌};
ghost use Rattle.history.specs.declared.Step.TheVariants.{Add, Save, Back};
ghost use Rattle.history.specs.Stepping.{word_verdict, length_verdict, words_verdict, lengths_verdict, draft_verdict, own_verdict, step_verdict};

use faults::{Fault, Verdict, first_fault};
use history::{Draft, NOT_SAVED, Step};
use table::checking::check_entry;

// The most entries of a draft.
const MAX_ENTRIES: u8 = 64;

// The greatest name.
const MAX_NAME: u8 = 15;

// Word i of a draft with so many entries: a good entry, or 0 behind them.
fn check_word(word: u32, i: usize, count: u8) -> Verdict
    ensures { result ≡ word_verdict count word i }
{
    if i < count as usize {
        return check_entry(word, i).map_err(|_| Fault::Draft);
    }
    if word == 0 { Ok(()) } else { Err(Fault::Draft) }
}

fn check_words(words: &[u32; 64], count: u8) -> Verdict
    ensures { result ≡ words_verdict count words.now }
{
    first_fault(64, |i| check_word(words[i], i, count))
}

// A saved length of a draft with so many entries: not saved, or no more than there are.
fn check_length(saved: u8, count: u8) -> Verdict
    ensures { result ≡ length_verdict count saved }
{
    if saved == NOT_SAVED || saved <= count {
        Ok(())
    } else {
        Err(Fault::Draft)
    }
}

fn check_lengths(saved: &[u8; 16], count: u8) -> Verdict
    ensures { result ≡ lengths_verdict count saved.now }
{
    first_fault(16, |name| check_length(saved[name], count))
}

// Whether some sequence of steps gives the draft.
#[tactic(auto, using(faults::proofs::Tests::tests), unfolding(history::specs::Stepping::draft_verdict))]
pub fn check_draft(draft: Draft) -> Verdict
    ensures { result ≡ draft_verdict draft }
{
    if MAX_ENTRIES < draft.count {
        return Err(Fault::Draft);
    }
    check_words(&draft.entries, draft.count)?;
    check_lengths(&draft.saved, draft.count)
}

// What adding is refused for: no room, whatever the entry is, then the entry.
fn check_next(draft: Draft, entry: u32) -> Verdict
    ensures { result ≡ own_verdict (Add entry) draft }
{
    if MAX_ENTRIES <= draft.count {
        return Err(Fault::TableLength);
    }
    check_entry(entry, draft.count as usize)
}

// What saving is refused for: no such name.
fn check_name(draft: Draft, name: u8) -> Verdict
    ensures { result ≡ own_verdict (Save name) draft }
{
    if name <= MAX_NAME {
        Ok(())
    } else {
        Err(Fault::Draft)
    }
}

// What coming back is refused for: no such name, or nothing saved under it.
fn check_saved(draft: Draft, name: u8) -> Verdict
    ensures { result ≡ own_verdict (Back name) draft }
{
    if MAX_NAME < name || draft.saved[name as usize] == NOT_SAVED {
        return Err(Fault::Draft);
    }
    Ok(())
}

fn check_own(draft: Draft, step: Step) -> Verdict
    ensures { result ≡ own_verdict step draft }
{
    match step {
        Step::Add(entry) => check_next(draft, entry),
        Step::Save(name) => check_name(draft, name),
        Step::Back(name) => check_saved(draft, name),
    }
}

// What a step is refused for: first the draft.
pub fn check_step(draft: Draft, step: Step) -> Verdict
    ensures { result ≡ step_verdict step draft }
{
    check_draft(draft)?;
    check_own(draft, step)
}
