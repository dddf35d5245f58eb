// The stack of slots in lent words: slot j is its set's code in word 2 j and its copies in word 2 j + 1.
ghost use Rattle.std.specs.Prelude.{◌≡◌, ◌+◌, ◌*◌, ◌<◌, ◌≤◌, length};
ghost use Rattle.semantics.specs.Count.{gain};
ghost use Rattle.sets.specs.Set.{code};
ghost use Rattle.sets.specs.Word.{bit_at};
ghost use Rattle.counting.specs.Stack.{slots_of, counts, tally_of, Few, Put};

use packed::item_or;
use sets::Set;

// Whether a set counts: those that promise are counted, or those that do not.
pub fn counts(promises: bool, promised: bool) -> bool
    ensures { result ≡ counts promised promises }
{
    promises == promised
}

// What the set with a code adds to a tally for entry i: its copies or nothing.
pub fn share(code: u64, copies: u64, i: usize, promised: bool) -> u64
    ensures { result ≡ gain (counts promised (bit_at code i)) copies }
{
    let promises = Set::of_code(code).contains(i);
    if counts(promises, promised) {
        copies
    } else {
        0
    }
}

// How many successors are in the first k slots, of those that promise entry i, or of those that do not.
pub fn tally(words: &[u64], k: usize, i: usize, promised: bool) -> u64
    requires { Few words.now k }
    ensures { result ≡ tally_of promised i (slots_of words.now k) }
{
    let mut sum: u64 = 0;
    for j in 0..k {
        let code = item_or(words, 2 * j, 0);
        let copies = item_or(words, 2 * j + 1, 0);
        sum += share(code, copies, i, promised);
    }
    sum
}

// Writes slot k: m copies of a set.
pub fn put_slot(words: &mut [u64], k: usize, set: Set, m: u64)
    requires { 2 * k + 2 ≤ length words.old }
    ensures { Put words.old k (code set) m words.new }
{
    words[2 * k] = set.code();
    words[2 * k + 1] = m;
}
