// The truth table of a structure (document 01: the board): which entries of a table are true at which worlds.
#![tactic(auto)]

ghost use Rattle.std.specs.Prelude.{◌≡◌, true, ℕ, ◌+◌, ◌*◌, ◌≤◌, ◌<◌, length, get_or};
ghost use Rattle.faults.specs.Verdict.{accepted};
ghost use Rattle.semantics.specs.Structure.{Structure};
ghost use Rattle.sets.specs.Word.{word};
ghost use Rattle.structure.specs.Record.{records};
ghost use Rattle.structure.specs.Read.{structure_of};
ghost use Rattle.table.specs.Entry.{entry_in, size};
ghost use Rattle.table.specs.Check.{table_verdict};
ghost use Rattle.truth_table.specs.Board.{truth_word, board_verdict, BoardAfter};
ghost use Rattle.structure.specs.Masks.{Leveled};
ghost use Rattle.truth_table.specs.Masks.{Called, Sized, Served, Ready, GoesOn, PartFilled};

use crate::entry_word::Grid;
use crate::places::{MAX_WORDS, Part};
use faults::{Fault, Verdict};
use packed::item_or;
use structure::read;

pub mod entry_word;
pub mod places;

// The word of entry i, where the words before it are there already: what an entry refers to stands before it.
fn next_word(table: &[u8], rows: &[u16], grid: Grid<'_>, all: u64, words: &[u64], i: usize) -> u64
    requires { (table_verdict table.now ≡ accepted) × (i < size table.now) × Sized grid 0
        × (6 ≤ (entry_in table.now i).kind → grid.levels * (get_or rows.now i 0 + grid.width) ≤ length grid.masks.now) }
    ensures { (s : Structure) → all ≡ word (λ w. true) s.worlds → s.worlds ≤ 64
        → Served s (entry_in table.now i) (get_or rows.now i 0) grid.entry
        → ((j : ℕ) → j < i → get_or words.now j 0 ≡ truth_word s (entry_in table.now) j)
        → result ≡ truth_word s (entry_in table.now) i }
{
    let e = table::entry::entry_at(table, i);
    let first = item_or(words, e.first as usize, 0);
    let second = item_or(words, e.second as usize, 0);
    entry_word::entry_word(e, grid, item_or(rows, i, 0) as usize, all, first, second)
}

// A part of a table that is laid out for a structure: the places of the facts and relations, and the row of each entry.
#[derive(Clone, Copy)]
struct Plan<'a> {
    table: &'a [u8],
    packed: &'a [u8],
    places: &'a [u16],
    rows: &'a [u16],
    part: Part,
}

impl Plan<'_> {
    // Fills the words of the part, entry by entry, where the masks have what its entries ask for.
    fn fill_words(self, grid: Grid<'_>, words: &mut [u64])
        requires { Called self.table.now self.packed.now (length words.old) × (self.part.from ≤ self.part.to)
            × (self.part.to ≤ size self.table.now) × Sized grid 0
            × ((i : ℕ) → self.part.from ≤ i → i < self.part.to
            → Served (structure_of self.packed.now) (entry_in self.table.now i) (get_or self.rows.now i 0) grid) }
        ensures { PartFilled self.entry words.old words.new }
    {
        let all = entry_word::all_worlds(read::worlds(self.packed));
        for i in self.part.from..self.part.to {
            words[i] = next_word(self.table, self.rows, grid, all, words, i);
        }
    }

    // Fills the words by masks that are lent as zeros, and filled first.
    fn fill_with(self, masks: &mut [u64], words: &mut [u64])
        requires { Ready self (length words.old) × (self.part.levels * self.part.used ≤ length masks.old)
            × ((p : ℕ) → get_or masks.old p 0 ≡ 0) }
        ensures { PartFilled self.entry words.old words.new }
    {
        read::fill_masks(self.packed, self.places, self.part.levels, masks);
        let grid = Grid {
            masks,
            width: read::worlds(self.packed),
            levels: self.part.levels,
        };
        self.fill_words(grid, words);
    }

    // Fills the words by masks of its own.
    fn fill_sized<const N: usize>(self, words: &mut [u64])
        requires { Ready self (length words.old) × (self.part.levels * self.part.used ≤ N) × (N ≤ 4160) }
        ensures { PartFilled self.entry words.old words.new }
    {
        let mut masks = [0u64; N];
        self.fill_with(&mut masks, words);
    }

    // Fills the words by as many masks as the rows take. Few are soon zeros; 512 are six relations of 64 worlds and a fact for
    // every other entry; a part asks for MAX_WORDS at most.
    fn fill(self, words: &mut [u64])
        requires { Ready self (length words.old) }
        ensures { PartFilled self.entry words.old words.new }
    {
        let room = self.part.levels * self.part.used;
        if room <= 64 {
            self.fill_sized::<64>(words);
        } else if room <= 512 {
            self.fill_sized::<512>(words);
        } else {
            self.fill_sized::<MAX_WORDS>(words);
        }
    }
}

// Lays out what the entries from `from` on ask for, as many as there is room for, and fills their words. The entry behind them.
fn fill_part(table: &[u8], packed: &[u8], from: usize, levels: usize, words: &mut [u64]) -> usize
    requires { Called table.now packed.now (length words.old) × Leveled packed.now levels × (from < size table.now) }
    ensures { (from < result) × (result ≤ size table.now)
        × GoesOn table.now packed.now from result words.old words.new }
{
    let mut places = [0u16; 512];
    let mut rows = [0u16; 64];
    let part = places::place_part(
        table,
        from,
        read::worlds(packed),
        levels,
        &mut places,
        &mut rows,
    );
    let plan = Plan {
        table,
        packed,
        places: &places,
        rows: &rows,
        part,
    };
    plan.fill(words);
    part.to
}

// Fills the words part by part.
fn fill_laid(table: &[u8], packed: &[u8], words: &mut [u64])
    requires { Called table.now packed.now (length words.old) }
    ensures { BoardAfter table.now packed.now words.old accepted words.new }
{
    let levels = read::levels(packed);
    let n = table.len() / 4;
    let mut i = 0;
    while i < n {
        i = fill_part(table, packed, i, levels, words);
    }
}

// Fills the words where the header is the only record: nothing is stated, so there is nothing to lay out.
fn fill_bare(table: &[u8], packed: &[u8], words: &mut [u64])
    requires { Called table.now packed.now (length words.old) × (records packed.now ≤ 1) }
    ensures { BoardAfter table.now packed.now words.old accepted words.new }
{
    let plan = Plan {
        table,
        packed,
        places: &[],
        rows: &[],
        part: Part {
            from: 0,
            to: table.len() / 4,
            levels: 1,
            used: 0,
        },
    };
    let grid = Grid {
        masks: &[],
        width: 0,
        levels: 1,
    };
    plan.fill_words(grid, words);
}

// Fills the first words, a word an entry.
fn fill(table: &[u8], packed: &[u8], words: &mut [u64])
    requires { Called table.now packed.now (length words.old) }
    ensures { BoardAfter table.now packed.now words.old accepted words.new }
{
    if packed.len() <= 3 {
        fill_bare(table, packed, words);
    } else {
        fill_laid(table, packed, words);
    }
}

// The first fault of a call with this many lent words.
fn checked(table: &[u8], packed: &[u8], words: usize) -> Verdict
    ensures { result ≡ board_verdict table.now packed.now words }
{
    table::checking::check(table)?;
    structure::checking::check(packed)?;
    if words < table.len() / 4 {
        return Err(Fault::Space);
    }
    Ok(())
}

// Writes the truth table, a word an entry, or refuses and writes nothing.
pub fn board(table: &[u8], packed: &[u8], words: &mut [u64]) -> Verdict
    ensures { (result ≡ board_verdict table.now packed.now (length words.old))
        × BoardAfter table.now packed.now words.old result words.new }
{
    checked(table, packed, words.len())?;
    fill(table, packed, words);
    Ok(())
}
