// Entries in 64-bit words, from which the decision reads them.
#![tactic(auto)]

ghost use Rattle.std.specs.Prelude.{◌≡◌, ◌≤◌};
ghost use Rattle.table.specs.Entry.{entry_in, size};
ghost use Rattle.table.specs.Formed.{WellFormed};
ghost use Rattle.wide.specs.Wide.{wide_of, wide_in, FitsWide, Widened};

pub mod fold;

use crate::fold::folded;
use packed::item_or;
use table::entry;
use table::entry::Entry;

// Takes a word apart.
fn unpack(word: u64) -> Entry
    ensures { result ≡ wide_of word }
{
    Entry {
        kind: ((word >> 60) % 16) as u32,
        name: ((word >> 44) % 65536) as u32,
        first: ((word >> 20) % 256) as u32,
        second: ((word >> 12) % 256) as u32,
        grade: (word % 4096) as u32,
    }
}

// Puts the fields of an entry into a word.
fn pack(e: Entry) -> u64
    requires { FitsWide e }
    ensures { wide_of result ≡ e }
{
    ((e.kind as u64) << 60)
        + ((e.name as u64) << 44)
        + ((e.first as u64) << 20)
        + ((e.second as u64) << 12)
        + (e.grade as u64)
}

// Entry i of the words; past their end an entry of zeros.
pub fn wide_at(entries: &[u64], i: usize) -> Entry
    ensures { result ≡ wide_in entries.now i }
{
    unpack(item_or(entries, i, 0))
}

// The entries of a table, each folded onto those before it, and 0 behind them.
pub fn widen(table: &[u8]) -> [u64; 64]
    requires { (size table.now ≤ 64) × WellFormed (entry_in table.now) (size table.now) }
    ensures { Widened table.now (size table.now) result }
{
    let n = table.len() / 4;
    let mut words = [0u64; 64];
    for i in 0..n {
        let e = entry::entry_at(table, i);
        words[i] = pack(folded(&words, i, e));
    }
    words
}
