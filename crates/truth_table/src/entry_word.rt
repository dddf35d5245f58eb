// The truth word of one entry, from the words of the entries that it refers to and the masks of what it asks for.
ghost use Rattle.std.specs.Prelude.{◌≡◌, Bool, true, ℕ, ◌+◌, ◌*◌, ◌^◌, ◌≤◌, ◌<◌, leb, length, get_or};
ghost use Rattle.std.specs.Int.Bits.{bit_and};
ghost use Rattle.std.specs.Int.Count.{ones};
ghost use Rattle.semantics.specs.Formula.{Formula};
ghost use Rattle.semantics.specs.Count.{bit, sum};
ghost use Rattle.semantics.specs.Structure.{Structure, successors};
ghost use Rattle.semantics.specs.Truth.{truth};
ghost use Rattle.sets.specs.Word.{word};
ghost use Rattle.table.specs.Formulas.{formula_of};
ghost use Rattle.table.specs.Check.{uses_of};
ghost use Rattle.truth_table.specs.Masks.{Sized, LinkRow, Served};

use packed::item_or;
use table::entry::Entry;
use table::kind::Kind;

// The word of every world.
pub fn all_worlds(worlds: usize) -> u64
    requires { (1 ≤ worlds) × (worlds ≤ 64) }
    ensures { result ≡ word (λ w. true) worlds }
{
    u64::MAX >> (64 - worlds)
}

// The masks, and how the row of a relation lies in them: a word for each of the first `width` worlds that links lead from, at
// each of the levels.
#[derive(Clone, Copy)]
pub struct Grid<'a> {
    pub masks: &'a [u64],
    pub width: usize,
    pub levels: usize,
}

// The word of one world, or of none.
fn at_world(w: usize, holds: bool) -> u64
    requires { w < 64 }
    ensures { result ≡ bit holds * 2 ^ w }
{
    u64::from(holds) << w
}

impl Grid<'_> {
    // How many worlds are led to at a level and pass.
    fn at_level(self, at: usize, part: u64) -> u32
        requires { at < length self.masks.now }
        ensures { (result ≡ ones (bit_and (get_or self.entry.masks.now at 0) part)) × (result ≤ 64) }
    {
        (self.masks[at] & part).count_ones()
    }

    // How many copies the links to worlds that pass have, by the levels of a word: one, or four.
    #[tactic(auto, unfolding(semantics::specs::Count::sum))]
    fn counted(self, at: usize, part: u64) -> u32
        requires { ((self.levels ≡ 1 → ⊥) → self.levels ≡ 4) × (1 ≤ self.levels) × (at + self.levels ≤ length self.masks.now) }
        ensures { result ≡ sum (λ t. ones (bit_and (get_or self.entry.masks.now (at + t) 0) part)) self.entry.levels }
    {
        if self.levels == 1 {
            return self.at_level(at, part);
        }
        self.at_level(at, part)
            + self.at_level(at + 1, part)
            + self.at_level(at + 2, part)
            + self.at_level(at + 3, part)
    }

    // The worlds of the row that lead to at least so many worlds where the part holds, by a grade above 0.
    fn enough(self, at: usize, part: u64, grade: u32) -> u64
        requires { Sized self at × (self.levels * (at + self.width) ≤ length self.masks.now) × (1 ≤ grade) }
        ensures { (s : Structure) (relation : ℕ) (p : ℕ → Bool) → LinkRow s relation at self.entry → part ≡ word p s.worlds
            → result ≡ word (λ w. leb grade (successors s relation w p)) s.worlds }
    {
        let mut holds = 0;
        for w in 0..self.width {
            let n = self.counted(self.levels * (at + w), part);
            holds |= at_world(w, grade <= n);
        }
        holds
    }

    // The worlds that lead to at least so many worlds where the part holds: every world, `all`, to at least none.
    fn at_least(self, at: usize, part: u64, grade: u32, all: u64) -> u64
        requires { Sized self at × (self.levels * (at + self.width) ≤ length self.masks.now) }
        ensures { (s : Structure) (relation : ℕ) (p : ℕ → Bool) → LinkRow s relation at self.entry → part ≡ word p s.worlds
            → all ≡ word (λ w. true) s.worlds → result ≡ word (λ w. leb grade (successors s relation w p)) s.worlds }
    {
        if grade == 0 {
            return all;
        }
        self.enough(at, part, grade)
    }
}

// The word of an entry, where `first` and `second` are those of the references that its kind uses, `all` is that of every
// world, and what it asks for stands in the masks. At most n is not at least n + 1.
pub fn entry_word(e: Entry, grid: Grid<'_>, at: usize, all: u64, first: u64, second: u64) -> u64
    requires { Sized grid at × (6 ≤ e.kind → grid.levels * (at + grid.width) ≤ length grid.masks.now) × (e.grade < 256) }
    ensures { (s : Structure) (ref : ℕ → Formula) → all ≡ word (λ w. true) s.worlds → s.worlds ≤ 64
        → Served s e at grid.entry
        → ((uses_of e.kind).first ≡ true → first ≡ word (truth s (ref e.first)) s.worlds)
        → ((uses_of e.kind).second ≡ true → second ≡ word (truth s (ref e.second)) s.worlds)
        → result ≡ word (truth s (formula_of ref e)) s.worlds }
{
    match Kind::of(e.kind) {
        Some(Kind::True) => all,
        Some(Kind::False) => 0,
        Some(Kind::Fact) => item_or(grid.masks, grid.levels * at, 0),
        Some(Kind::Not) => all & !first,
        Some(Kind::And) => first & second,
        Some(Kind::Or) => first | second,
        Some(Kind::AtLeast) => grid.at_least(at, first, e.grade, all),
        Some(Kind::AtMost) => all & !grid.at_least(at, first, e.grade + 1, all),
        None => 0,
    }
}
