// Records: the packed 24-bit word, its fields, and the kinds.
ghost use Rattle.std.specs.Prelude.{◌≡◌, ◌<◌, ◌≤◌, IfSome, IfNone};
ghost use Rattle.structure.specs.Kind.{kind_number};
ghost use Rattle.structure.specs.Record.{record_of, triple_in, record_in};

use packed::big_endian;

// The fields of a record, the same for its three kinds. A header's world is the number of worlds less 1, and a link's is
// the world that it leads from; a name is a fact's or a relation's.
#[derive(Clone, Copy)]
pub struct Record {
    pub kind: u32,
    pub world: u32,
    pub name: u32,
    pub to: u32,
    pub copies: u32,
}

impl Record {
    // Takes a 24-bit record apart.
    pub fn unpack(word: u32) -> Record
        ensures { result ≡ record_of word }
    {
        Record {
            kind: (word >> 22) & 3,
            world: (word >> 16) & 63,
            name: (word >> 8) & 255,
            to: (word >> 2) & 63,
            copies: word & 3,
        }
    }
}

// In the order of their numbers, from 0.
#[derive(Clone, Copy, Debug, PartialEq, Eq)]
pub enum RecordKind {
    Header,
    Fact,
    Link,
}

impl RecordKind {
    // The kind that a packed record names by a number, if there is one.
    pub fn of(number: u32) -> Option<RecordKind>
        ensures known { IfSome result (λ kind. number ≡ kind_number kind) }
        ensures unknown { IfNone result (3 ≤ number) }
    {
        match number {
            0 => Some(RecordKind::Header),
            1 => Some(RecordKind::Fact),
            2 => Some(RecordKind::Link),
            _ => None,
        }
    }
}

// Record i of a structure, packed; 0 past the structure's end.
#[tactic(auto, unfolding(crate::specs::Record::triple_in))]
fn triple_at(bytes: &[u8], i: usize) -> u32
    ensures { result ≡ triple_in bytes.now i }
{
    big_endian(bytes, 3, i) as u32
}

// Record i of a structure. Its worlds have six bits, its name has eight, its copies two.
pub fn record_at(bytes: &[u8], i: usize) -> Record
    ensures { (result ≡ record_in bytes.now i) × (result.world < 64) × (result.to < 64) × (result.name < 256)
        × (result.copies < 4) }
{
    Record::unpack(triple_at(bytes, i))
}
