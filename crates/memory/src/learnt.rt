// What was learnt: questions whose answers tell of others too. Where no world is as a few entries want, none is that wants
// more (known as nogoods, or learnt clauses); where a world is as many entries want, it is as any of them want. The first
// slots are for those, as many for either answer, and each of them is looked at.
ghost use Rattle.std.specs.Prelude.{◌≡◌, ℕ, ◌<◌, true, length};
ghost use Rattle.sets.specs.Set.{member};
ghost use Rattle.table.specs.declared.entry.Entry.{Entry};
ghost use Rattle.tableau.specs.Wants.{Sat};
ghost use Rattle.memory.specs.Memory.{Memory, Fits, SlotsIs, Stored};
ghost use Rattle.memory.specs.Learnt.{Never, RuledIs, MissingIs};

use crate::slots::{is_free, learnt_in, slots_in, spread, store};
use packed::item_or;
use sets::Set;

// What is known of a question: no world is as it wants that also makes such an entry true, or false. Where no world is as it
// wants at all, None stands in its place.
#[derive(Clone, Copy)]
pub struct Ruled {
    pub yes: Set,
    pub no: Set,
}

// The first free slot of so many from one on, or else another one.
fn free_slot(words: &[u64], from: usize, first: usize, end: usize, otherwise: usize) -> usize
    requires { SlotsIs from (length words.now) end × (otherwise < end) }
    ensures { result < end }
{
    (first..end)
        .find(|&slot| is_free(words, from, slot))
        .unwrap_or(otherwise)
}

// Stores an answer among what is learnt, over another one where no slot is free.
pub fn learn(words: &mut [u64], from: usize, yes: Set, no: Set, answer: bool)
    ensures { Stored from (member yes) (member no) answer words.old words.new }
{
    let learnt = learnt_in(slots_in(words.len(), from));
    if learnt == 0 {
        return;
    }
    let first = if answer { learnt } else { 0 };
    let any = first + spread(yes, no, learnt);
    let slot = free_slot(words, from, first, first + learnt, any);
    store(words, from, slot, yes, no, answer);
}

// What is known, with what follows where a question without a world lacks only these entries, to be so.
fn with_missing(known: Ruled, missing: Set, truth: bool) -> Option<Ruled>
    ensures { MissingIs known (member missing) truth result }
{
    let i = missing.highest()?;
    if !missing.without(i).is_empty() {
        return Some(known);
    }
    if truth {
        Some(Ruled {
            yes: known.yes.with(i),
            ..known
        })
    } else {
        Some(Ruled {
            no: known.no.with(i),
            ..known
        })
    }
}

// What is known, with what follows from a slot.
fn with_slot(
    words: &[u64],
    from: usize,
    slot: usize,
    yes: Set,
    no: Set,
    known: Ruled,
) -> Option<Ruled>
    requires { Fits from (length words.now) slot }
    ensures { (entry : ℕ → Entry) → Memory entry words.now from → Never entry (member yes) (member no) known
        → RuledIs entry (member yes) (member no) result }
{
    let at = from + 3 * slot;
    if item_or(words, at + 2, 0) != 2 {
        return Some(known);
    }
    let more_yes = Set::of_code(item_or(words, at, 0)).minus(yes);
    let more_no = Set::of_code(item_or(words, at + 1, 0)).minus(no);
    if more_no.is_empty() {
        return with_missing(known, more_yes, true);
    }
    if more_yes.is_empty() {
        return with_missing(known, more_no, false);
    }
    Some(known)
}

// What the learnt questions without a world tell of a question.
pub fn rulings(words: &[u64], from: usize, yes: Set, no: Set) -> Option<Ruled>
    ensures { (entry : ℕ → Entry) → Memory entry words.now from → RuledIs entry (member yes) (member no) result }
{
    let learnt = learnt_in(slots_in(words.len(), from));
    let mut known = Ruled {
        yes: Set::empty(),
        no: Set::empty(),
    };
    for slot in 0..learnt {
        if is_free(words, from, slot) {
            return Some(known);
        }
        known = with_slot(words, from, slot, yes, no, known)?;
    }
    Some(known)
}

// Whether the world of a slot's question, if it has one, is as another question wants.
fn serves(words: &[u64], from: usize, slot: usize, yes: Set, no: Set) -> bool
    requires { Fits from (length words.now) slot }
    ensures { (entry : ℕ → Entry) → Memory entry words.now from → result ≡ true → Sat entry (member yes) (member no) }
{
    let at = from + 3 * slot;
    item_or(words, at + 2, 0) == 1
        && yes.minus(Set::of_code(item_or(words, at, 0))).is_empty()
        && no.minus(Set::of_code(item_or(words, at + 1, 0))).is_empty()
}

// Whether a learnt question with a world shows that there is one for this question.
pub fn witnessed(words: &[u64], from: usize, yes: Set, no: Set) -> bool
    ensures { (entry : ℕ → Entry) → Memory entry words.now from → result ≡ true → Sat entry (member yes) (member no) }
{
    let learnt = learnt_in(slots_in(words.len(), from));
    for slot in learnt..2 * learnt {
        if is_free(words, from, slot) {
            return false;
        }
        if serves(words, from, slot, yes, no) {
            return true;
        }
    }
    false
}
