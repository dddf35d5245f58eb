// A list of sets in lent words, one code a word: is a set inside one of them, and one more.
#![tactic(auto)]

ghost use Rattle.std.specs.Prelude.{◌≡◌, true, ◌+◌, ◌<◌, ◌≤◌, length};
ghost use Rattle.sets.specs.Set.{member, code, Within};
ghost use Rattle.listed.specs.Codes.{codes_from, Inside, Appended};

use packed::item_or;
use sets::Set;

// Whether a set is seen to have all members of another.
fn inside(set: Set, other: Set) -> bool
    ensures { result ≡ true → Within (member set) (member other) }
{
    set.minus(other).is_empty()
}

// Whether the set lies inside one of the k sets from a place on.
pub fn covered(words: &[u64], at: usize, k: usize, set: Set) -> bool
    requires { at + k ≤ length words.now }
    ensures { result ≡ true → Inside (member set) (codes_from words.now at k) }
{
    for j in 0..k {
        if inside(set, Set::of_code(item_or(words, at + j, 0))) {
            return true;
        }
    }
    false
}

// Writes the set behind the k sets from a place on.
pub fn append(words: &mut [u64], at: usize, k: usize, set: Set)
    requires { at + k < length words.old }
    ensures { Appended words.old at k (code set) words.new }
{
    words[at + k] = set.code();
}
