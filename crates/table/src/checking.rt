// The check of a table: the faults 1 to 4 of document 01, in its order.
ghost use Rattle.std.specs.Prelude.{◌≡◌, ◌&&◌, ◌<◌, eqb, leb};
ghost use Rattle.table.specs.Entry.{entry_of};
ghost use Rattle.table.specs.Check.{uses_of, refers_upward, fields_verdict, entry_verdict, table_verdict};
ghost use Rattle.table.specs.Mask.{bits_used};

use crate::entry;
use crate::entry::Entry;
use faults::{Fault, Verdict, first_fault};

// The longest table, in bytes.
const MAX_BYTES: usize = 256;

// The bits of a 32-bit entry that each kind uses: the kind's own, and those of the fields that it uses.
const USED: [u32; 8] = [
    0xf000_0000,
    0xf000_0000,
    0xfff0_0000,
    0xf00f_c000,
    0xf00f_ff00,
    0xf00f_ff00,
    0xffff_c0ff,
    0xffff_c0ff,
];

fn used_bits(kind: u32) -> u32
    requires { kind < 8 }
    ensures { result ≡ bits_used (uses_of kind) }
{
    USED[kind as usize]
}

// Whether a reference is used, and not smaller than the entry's own number i.
#[tactic(auto, using(faults::proofs::Tests::tests))]
fn is_up(uses: u32, reference: u32, i: usize) -> bool
    ensures { result ≡ eqb uses 1 && leb i reference }
{
    uses == 1 && i <= reference as usize
}

// Whether a used reference of an entry is not smaller than the entry's own number. `used` is what its kind uses.
fn refers_up(e: Entry, used: u32, i: usize) -> bool
    requires { used ≡ bits_used (uses_of e.kind) }
    ensures { result ≡ refers_upward e i }
{
    is_up((used >> 14) & 1, e.first, i) || is_up((used >> 8) & 1, e.second, i)
}

// The first fault of a packed entry of a known kind, as entry number i: 3, then 4.
#[tactic(auto, using(crate::proofs::Fields::stray_found, crate::proofs::Fields::stray_none))]
fn check_fields(word: u32, i: usize) -> Verdict
    requires { (entry_of word).kind < 8 }
    ensures { result ≡ fields_verdict (entry_of word) i }
{
    let e = Entry::unpack(word);
    let used = used_bits(e.kind);
    if word & !used != 0 {
        return Err(Fault::UnusedField);
    }
    if refers_up(e, used, i) {
        return Err(Fault::Reference);
    }
    Ok(())
}

// The first fault of a packed entry, as entry number i: 2, then 3, then 4.
#[tactic(auto, using(faults::proofs::Tests::tests))]
pub fn check_entry(word: u32, i: usize) -> Verdict
    ensures { result ≡ entry_verdict (entry_of word) i }
{
    match Entry::unpack(word).kind {
        8..=15 => Err(Fault::Kind),
        _ => check_fields(word, i),
    }
}

// Whether a table is accepted; if not, its first fault in document 01's order.
#[tactic(auto, using(faults::proofs::Tests::tests), unfolding(crate::specs::Check::table_verdict))]
pub fn check(table: &[u8]) -> Verdict
    ensures { result ≡ table_verdict table.now }
{
    let bytes = table.len();
    if bytes == 0 || MAX_BYTES < bytes || bytes % 4 != 0 {
        return Err(Fault::TableLength);
    }
    first_fault(bytes / 4, |i| check_entry(entry::word_at(table, i), i))
}
