// The check of a structure: the faults 6 to 8 of document 01, in its order.
ghost use Rattle.std.specs.Prelude.{◌≡◌};
ghost use Rattle.structure.specs.Check.{record_faulty, world_faulty, record_verdict, structure_verdict};

use crate::read;
use crate::record::{self, Record, RecordKind};
use faults::{Fault, Verdict, first_fault};

// The longest structure, in bytes: 1,024 records.
const MAX_BYTES: usize = 3072;

// Whether record i stands in a wrong place, is of no known kind, or has a zero bit that is 1.
#[tactic(auto, using(faults::proofs::Tests::tests, crate::proofs::Fields::or_zero))]
fn is_faulty(r: Record, i: usize) -> bool
    ensures { result ≡ record_faulty r i }
{
    match RecordKind::of(r.kind) {
        Some(RecordKind::Header) => i != 0 || r.name | r.to | r.copies != 0,
        Some(RecordKind::Fact) => i == 0 || r.to | r.copies != 0,
        Some(RecordKind::Link) => i == 0,
        None => true,
    }
}

// Whether a record names a world that is not below the number of worlds.
#[tactic(auto, using(faults::proofs::Tests::tests))]
fn is_outside(r: Record, worlds: usize) -> bool
    ensures { result ≡ world_faulty r worlds }
{
    let world = r.world as usize;
    match RecordKind::of(r.kind) {
        Some(RecordKind::Fact) => worlds <= world,
        Some(RecordKind::Link) => worlds <= world || worlds <= r.to as usize,
        Some(RecordKind::Header) | None => false,
    }
}

// The first fault of a record, as record number i: 7, then 8.
fn check_record(r: Record, i: usize, worlds: usize) -> Verdict
    ensures { result ≡ record_verdict r i worlds }
{
    if is_faulty(r, i) {
        return Err(Fault::Record);
    }
    if is_outside(r, worlds) {
        return Err(Fault::World);
    }
    Ok(())
}

// Whether a structure is accepted; if not, its first fault in document 01's order.
#[tactic(auto, using(faults::proofs::Tests::tests), unfolding(crate::specs::Check::structure_verdict, crate::specs::Read::stated))]
pub fn check(bytes: &[u8]) -> Verdict
    ensures { result ≡ structure_verdict bytes.now }
{
    let length = bytes.len();
    if length == 0 || MAX_BYTES < length || length % 3 != 0 {
        return Err(Fault::StructureLength);
    }
    let worlds = read::worlds(bytes);
    first_fault(
        length / 3,
        |i| check_record(record::record_at(bytes, i), i, worlds),
    )
}
