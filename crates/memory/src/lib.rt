// Questions that have been answered, kept in lent words: a slot is the set wanted true, the set wanted false, and the
// answer. Few slots are for what is learnt, which tells of other questions too. Of the others, half are for questions that
// are dear to answer. All are overwritten freely.
#![tactic(auto)]

ghost use Rattle.std.specs.Prelude.{ℕ, ◌+◌, length};
ghost use Rattle.sets.specs.Set.{member};
ghost use Rattle.table.specs.declared.entry.Entry.{Entry};
ghost use Rattle.memory.specs.Memory.{Memory, RecallIs, StandsFor, Fits, PairIs, Stored, Shifted, Forgotten};

pub mod learnt;
pub mod slots;

use learnt::witnessed;
use packed::item_or;
use sets::Set;
use slots::{SLOTS, learnt_in, put, slots_in, spread, store};

// The first of the two slots of a question, among so many words. Those that are dear have slots of their own, so that many
// cheap ones do not push them out.
fn find(words: usize, from: usize, yes: Set, no: Set, dear: bool) -> Option<usize>
    ensures { PairIs from words result }
{
    let slots = slots_in(words, from);
    let first = 2 * learnt_in(slots);
    let pairs = (slots - first) / 4;
    if pairs == 0 {
        return None;
    }
    let pair = spread(yes, no, pairs);
    if dear {
        Some(first + 2 * pair)
    } else {
        Some(first + 2 * (pairs + pair))
    }
}

// The answer whose code a slot's last word is.
fn answer_of(last: u64) -> Option<bool>
    ensures { StandsFor last result }
{
    match last {
        1 => Some(true),
        2 => Some(false),
        _ => None,
    }
}

// What a slot says of a question, if it is that of the slot.
fn recall_at(words: &[u64], from: usize, slot: usize, yes: Set, no: Set) -> Option<bool>
    requires { Fits from (length words.now) slot }
    ensures { (entry : ℕ → Entry) → Memory entry words.now from → RecallIs entry (member yes) (member no) result }
{
    let at = from + 3 * slot;
    if item_or(words, at, 0) != yes.code() || item_or(words, at + 1, 0) != no.code() {
        return None;
    }
    answer_of(item_or(words, at + 2, 0))
}

// The answer in one of the two slots of a question.
fn stored_answer(words: &[u64], from: usize, yes: Set, no: Set, dear: bool) -> Option<bool>
    ensures { (entry : ℕ → Entry) → Memory entry words.now from → RecallIs entry (member yes) (member no) result }
{
    let slot = find(words.len(), from, yes, no, dear)?;
    recall_at(words, from, slot, yes, no).or_else(|| recall_at(words, from, slot + 1, yes, no))
}

// Whether some world makes one set of entries true and another false, if that is remembered in the slots from a place on,
// or shown by what is learnt.
pub fn recall(words: &[u64], from: usize, yes: Set, no: Set, dear: bool) -> Option<bool>
    ensures { (entry : ℕ → Entry) → Memory entry words.now from → RecallIs entry (member yes) (member no) result }
{
    let stored = stored_answer(words, from, yes, no, dear);
    stored.or_else(|| witnessed(words, from, yes, no).then_some(true))
}

// Copies a slot over the one behind it.
fn shift(words: &mut [u64], from: usize, slot: usize)
    requires { Fits from (length words.old) (slot + 1) }
    ensures { Shifted from words.old words.new }
{
    let at = from + 3 * slot;
    let yes = item_or(words, at, 0);
    let no = item_or(words, at + 1, 0);
    let last = item_or(words, at + 2, 0);
    put(words, from, slot + 1, yes, no, last);
}

// Stores an answer in the first slot of its question. What was there moves to the second one, over what that had.
pub fn remember(words: &mut [u64], from: usize, yes: Set, no: Set, dear: bool, answer: bool)
    ensures { Stored from (member yes) (member no) answer words.old words.new }
{
    let Some(slot) = find(words.len(), from, yes, no, dear) else {
        return;
    };
    shift(words, from, slot);
    store(words, from, slot, yes, no, answer);
}

// Forgets everything: the words of the slots become 0.
pub fn forget(words: &mut [u64], from: usize)
    ensures { Forgotten from words.old words.new }
{
    let begin = from.min(words.len());
    let end = words.len().min(begin + SLOTS * 3);
    words[begin..end].fill(0);
}
