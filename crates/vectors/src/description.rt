// The entries of a table, one after the other, and what a call on them needs of words.
use crate::entries::{Room, put};

// The first `bytes` bytes are the table. `grades` is document 01's G: the sum of (grade + 1) over kinds 6 and 7.
#[derive(Clone, Copy)]
pub struct Description {
    pub table: Room,
    pub bytes: usize,
    pub grades: usize,
}

// What an entry adds to G.
fn gain(entry: u32) -> usize {
    match entry >> 28 {
        6 | 7 => (entry % 256) as usize + 1,
        _ => 0,
    }
}

impl Description {
    pub fn none() -> Description {
        Description {
            table: [0u8; 260],
            bytes: 0,
            grades: 0,
        }
    }

    // One more entry.
    pub fn entry(self, entry: u32) -> Description {
        let i = self.bytes / 4;
        let mut table = self.table;
        if 64 < i {
            return self;
        }
        put(&mut table, i, entry);
        Description {
            table,
            bytes: 4 * i + 4,
            grades: self.grades.wrapping_add(gain(entry)),
        }
    }

    // These entries, from the first on.
    pub fn of(entries: &[u32]) -> Description {
        let mut d = Description::none();
        for entry in entries {
            d = d.entry(*entry);
        }
        d
    }

    // The same bytes, so many of them.
    pub fn cut(self, bytes: usize) -> Description {
        Description { bytes, ..self }
    }

    // What lent bytes that all held `before` hold after the table is written into them.
    pub fn written_over(self, before: u8) -> Room {
        let mut room = [before; 260];
        let bytes = self.bytes.min(260);
        room[..bytes].copy_from_slice(&self.table[..bytes]);
        room
    }

    // The number of the last entry.
    pub fn last(self) -> usize {
        (self.bytes / 4).saturating_sub(1)
    }

    // Document 01's W for an entry of this depth.
    pub fn work(self, depth: usize) -> usize {
        let n = self.bytes / 4 % 66;
        let grades = self.grades % 0x1_0000;
        8 * (depth % 64 + 1) * (2 * n + grades + 4)
    }
}
