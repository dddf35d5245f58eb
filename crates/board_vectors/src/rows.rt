// The entries of a table, and beside each the word that the board is to have for it.
use std::array;
use vectors::entries::{Room, put};

// The words lent at the most: two more than the entries of the longest table.
pub type Words = [u64; 66];

// What stands in the lent words before a call: no two alike, and none that a case expects.
pub fn before() -> Words {
    array::from_fn(|i| 0xb1d3_5a69_0f27_c400 + i as u64)
}

// The first `bytes` bytes are the table. `words` is what the lent words are to be after an answer: those behind the
// entries as before.
#[derive(Clone, Copy)]
pub struct Rows {
    pub table: Room,
    pub bytes: usize,
    pub words: Words,
}

impl Rows {
    pub fn none() -> Rows {
        Rows {
            table: [0u8; 260],
            bytes: 0,
            words: before(),
        }
    }

    // One more entry, and its word.
    pub fn entry(self, entry: u32, word: u64) -> Rows {
        let i = self.bytes / 4;
        let mut table = self.table;
        let mut words = self.words;
        if 65 < i {
            return self;
        }
        put(&mut table, i, entry);
        words[i] = word;
        Rows {
            table,
            bytes: 4 * i + 4,
            words,
        }
    }

    // The same bytes, so many of them.
    pub fn cut(self, bytes: usize) -> Rows {
        Rows { bytes, ..self }
    }
}
