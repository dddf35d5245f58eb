// Entries: the packed 32-bit word, and its fields.
ghost use Rattle.std.specs.Prelude.{◌≡◌, ◌+◌, ◌*◌, ◌≤◌, length};
ghost use Rattle.table.specs.Entry.{entry_of, word_in, entry_in, Packable, PutEntry};

use packed::big_endian;

// The fields of an entry. A field that its kind does not use means nothing.
#[derive(Clone, Copy)]
pub struct Entry {
    pub kind: u32,
    pub name: u32,
    pub first: u32,
    pub second: u32,
    pub grade: u32,
}

impl Entry {
    // Takes a 32-bit entry apart.
    pub fn unpack(word: u32) -> Entry
        ensures { result ≡ entry_of word }
    {
        Entry {
            kind: (word >> 28) & 15,
            name: (word >> 20) & 255,
            first: (word >> 14) & 63,
            second: (word >> 8) & 63,
            grade: word & 255,
        }
    }

    // The 32-bit entry with these fields.
    pub fn pack(self) -> u32
        requires { Packable self }
        ensures { entry_of result ≡ self }
    {
        (((self.kind * 256 + self.name) * 64 + self.first) * 64 + self.second) * 256 + self.grade
    }
}

// Entry i of a table, packed; 0 past the table's end.
#[tactic(auto, unfolding(crate::specs::Entry::word_in))]
pub fn word_at(table: &[u8], i: usize) -> u32
    ensures { result ≡ word_in table.now i }
{
    big_endian(table, 4, i) as u32
}

// Entry i of a table.
pub fn entry_at(table: &[u8], i: usize) -> Entry
    ensures { result ≡ entry_in table.now i }
{
    Entry::unpack(word_at(table, i))
}

// Writes entry i of a table.
pub fn put(table: &mut [u8], i: usize, e: Entry)
    requires { Packable e × (4 * i + 4 ≤ length table.old) }
    ensures { PutEntry i e table.old table.new }
{
    packed::put(table, 4, i, e.pack() as u64);
}
