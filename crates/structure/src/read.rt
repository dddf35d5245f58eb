// What an accepted structure states, as words: bit w of a word speaks of the world w.
ghost use Rattle.std.specs.Prelude.{◌≡◌, ℕ, ◌+◌, ◌*◌, ◌^◌, ◌≤◌, ◌<◌, length, get_or};
ghost use Rattle.faults.specs.Verdict.{accepted};
ghost use Rattle.structure.specs.Record.{record_in, records, worlds_of};
ghost use Rattle.structure.specs.Read.{structure_of};
ghost use Rattle.structure.specs.Masks.{key_of, place_of, Spread, Leveled, Raised, Gained, Masked};
ghost use Rattle.structure.specs.Check.{structure_verdict};

use crate::record::{self, RecordKind};
use packed::item_or;

// How many worlds there are.
#[tactic(auto, unfolding(crate::specs::Read::stated))]
pub fn worlds(bytes: &[u8]) -> usize
    ensures { (result ≡ (structure_of bytes.now).worlds) × (1 ≤ result) × (result ≤ 64) }
{
    record::record_at(bytes, 0).world as usize + 1
}

// Where the place of a row stands in a list of places: of a relation, or of a fact.
pub fn key(relation: bool, name: u32) -> usize
    requires { name < 256 }
    ensures { (result ≡ key_of relation name) × (result < 512) }
{
    if relation {
        256 + name as usize
    } else {
        name as usize
    }
}

// How many levels are enough for the copies of every link: one where each has one, or all four.
pub fn levels(bytes: &[u8]) -> usize
    ensures { Leveled bytes.now result }
{
    let n = bytes.len() / 3;
    let mut bits = 0;
    for i in 0..n {
        bits |= record::record_at(bytes, i).copies;
    }
    if bits == 0 { 1 } else { 4 }
}

// Where the levels of word `from` of a row begin.
fn lowest(relation: bool, name: u32, from: u32, levels: usize, places: &[u16]) -> usize
    requires { (name < 256) × (from < 64) × (levels ≤ 4) }
    ensures { result ≡ levels * (place_of places.now relation name + from) }
{
    levels * (item_or(places, key(relation, name), 0) as usize + from as usize)
}

// Sets the bit `to` of n words, and of one at least.
fn raise(to: u32, at: usize, n: usize, masks: &mut [u64])
    requires { (to < 64) × (1 ≤ n) × (at + n ≤ length masks.old) }
    ensures { Raised (2 ^ to) at n masks.old masks.new }
{
    // Most links have one copy: the loop is left out then.
    masks[at] |= 1 << to;
    for t in 1..n {
        masks[at + t] |= 1 << to;
    }
}

// Adds what record i states to the masks: a link comes to as many levels as it has copies.
fn add_record(bytes: &[u8], i: usize, places: &[u16], levels: usize, masks: &mut [u64])
    requires { (structure_verdict bytes.now ≡ accepted) × (i < records bytes.now)
        × Leveled bytes.now levels
        × Spread (worlds_of (record_in bytes.now)) levels (length masks.old) places.now }
    ensures { Gained (record_in bytes.now i) (worlds_of (record_in bytes.now)) levels places.now
        masks.old masks.new }
{
    let r = record::record_at(bytes, i);
    match RecordKind::of(r.kind) {
        Some(RecordKind::Fact) => {
            raise(r.world, lowest(false, r.name, 0, levels, places), 1, masks);
        }
        Some(RecordKind::Link) => {
            let at = lowest(true, r.name, r.world, levels, places);
            raise(r.to, at, r.copies as usize + 1, masks);
        }
        Some(RecordKind::Header) => {}
        None => {}
    }
}

// Fills the masks, zeros before: each record is read once, and goes to the row that has its fact or its relation.
pub fn fill_masks(bytes: &[u8], places: &[u16], levels: usize, masks: &mut [u64])
    requires { (structure_verdict bytes.now ≡ accepted) × Leveled bytes.now levels
        × Spread (structure_of bytes.now).worlds levels (length masks.old) places.now
        × ((p : ℕ) → get_or masks.old p 0 ≡ 0) }
    ensures { Masked (structure_of bytes.now) levels places.now masks.new }
{
    let n = bytes.len() / 3;
    for i in 0..n {
        add_record(bytes, i, places, levels, masks);
    }
}
