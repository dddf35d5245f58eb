// Where things stand in the lent words. Words 0 to 63 are the bounds by entry number, then come the codes of the columns.
// Behind them are lines of as many words as there are rows: the rows' entries, the basis, the weights, the mates, and the
// lines of the matrix. Nothing is read or written past the end.
use crate::number::product;
use packed::item_or;
use sets::Set;

// Row k is a need or a limit; its entry is in line 0.
#[derive(Clone, Copy)]
pub struct Frame {
    pub needs: Set,
    pub limits: Set,
    pub columns: usize,
    pub rows: usize,
}

// The basis: the variable of row k. The columns come first, then the slack of each row.
pub const BASIS: usize = 1;

// The weights that are tried, by row.
pub const WEIGHTS: usize = 2;

// For each row its mate, if it has one.
pub const MATES: usize = 3;

// The inverse of the basis, times the divisor, a line for each row, and a last line for the costs.
pub const MATRIX: usize = 4;

impl Frame {
    // Where a line begins.
    pub fn line(self, number: usize) -> usize {
        let before = product(number as u64, self.rows as u64) as usize;
        self.columns.wrapping_add(64).wrapping_add(before)
    }

    // Where line k of the matrix begins.
    pub fn matrix_line(self, k: usize) -> usize {
        self.line(k.wrapping_add(MATRIX))
    }

    pub fn get(self, s: &[u64], number: usize, k: usize) -> u64 {
        item_or(s, self.line(number).wrapping_add(k), 0)
    }

    pub fn put(self, s: &mut [u64], number: usize, k: usize, word: u64) {
        write(s, self.line(number).wrapping_add(k), word);
    }

    // The number in line k and column j of the matrix.
    pub fn matrix(self, s: &[u64], k: usize, j: usize) -> i64 {
        number_at(s, self.matrix_line(k).wrapping_add(j))
    }

    // The entry of row k.
    pub fn entry(self, s: &[u64], k: usize) -> usize {
        self.get(s, 0, k) as usize
    }

    pub fn is_need(self, e: usize) -> bool {
        self.needs.contains(e)
    }

    // Whether a column counts for an entry: a need that it has, or a limit that it lacks.
    pub fn counts(self, c: Set, e: usize) -> bool {
        self.is_need(e) == c.contains(e)
    }
}

pub fn number_at(s: &[u64], at: usize) -> i64 {
    item_or(s, at, 0).cast_signed()
}

pub fn write(s: &mut [u64], at: usize, word: u64) {
    if let Some(place) = s.get_mut(at) {
        *place = word;
    }
}

// The code of a column.
pub fn code(s: &[u64], v: usize) -> Set {
    Set::of_code(item_or(s, v.wrapping_add(64), 0))
}
