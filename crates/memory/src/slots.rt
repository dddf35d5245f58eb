// The slots in lent words, from a place on: how many there are, which of them are for what is learnt, and how one is written.
ghost use Rattle.std.specs.Prelude.{◌≡◌, ◌*◌, ◌<◌, ◌≤◌, length};
ghost use Rattle.sets.specs.Set.{member};
ghost use Rattle.memory.specs.Memory.{answer_code, Fits, SlotsIs, Written, Stored};

use packed::item_or;
use sets::Set;

// How many slots there are at the most.
pub const SLOTS: usize = 16384;

// Which of so many places a question is given. Every bit of both sets has a part in it: sets that differ in high members
// only would else meet in one place, and each would be answered again and again.
pub fn spread(yes: Set, no: Set, places: usize) -> usize
    requires { 0 < places }
    ensures { result < places }
{
    let a = (yes.code() % 4294967291) * 2654435769;
    let b = (no.code() % 4294967279) * 2246822519;
    (a.wrapping_add(b) >> 32) as usize % places
}

// How many slots there are among so many words, from a place on.
pub fn slots_in(words: usize, from: usize) -> usize
    ensures { SlotsIs from words result }
{
    (words.saturating_sub(from) / 3).min(SLOTS)
}

// How many of so many slots are for what is learnt, of either answer.
pub fn learnt_in(slots: usize) -> usize
    ensures { 8 * result ≤ slots }
{
    (slots / 8).min(256)
}

// Whether nothing was stored in a slot.
pub fn is_free(words: &[u64], from: usize, slot: usize) -> bool
    requires { Fits from (length words.now) slot }
{
    item_or(words, from + 3 * slot + 2, 0) == 0
}

// The code of an answer.
fn code_of(answer: bool) -> u64
    ensures { result ≡ answer_code answer }
{
    if answer { 1 } else { 2 }
}

// Writes the words of a slot.
pub fn put(words: &mut [u64], from: usize, slot: usize, yes: u64, no: u64, last: u64)
    requires { Fits from (length words.old) slot }
    ensures { Written from yes no last words.old words.new }
{
    let at = from + 3 * slot;
    words[at] = yes;
    words[at + 1] = no;
    words[at + 2] = last;
}

// Writes a question and its answer into a slot.
pub fn store(words: &mut [u64], from: usize, slot: usize, yes: Set, no: Set, answer: bool)
    requires { Fits from (length words.old) slot }
    ensures { Stored from (member yes) (member no) answer words.old words.new }
{
    put(words, from, slot, yes.code(), no.code(), code_of(answer));
}
