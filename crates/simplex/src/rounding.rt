// Weights with a divisor, for a problem that fractions of columns solve and whole ones may not. A need and a limit are
// mates if they have the same bound and no column has both: an exact number is asked for. Mates get the same weight, that of
// a line of the matrix over d, so the columns of the basis have multiples of d; where the bounds have none, that refutes.
use crate::row_weights;
use packed::item_or;
use pivoting::frame::{Frame, MATES, WEIGHTS};
use pivoting::number::rest;
use pivoting::{frame, pivot};

// Whether no column has both of two entries.
fn apart(s: &[u64], columns: usize, a: usize, b: usize) -> bool {
    (0..columns).all(|v| {
        let c = frame::code(s, v);
        !c.contains(a) || !c.contains(b)
    })
}

// Whether two entries are mates.
fn are_mates(s: &[u64], f: Frame, a: usize, b: usize) -> bool {
    f.is_need(a) != f.is_need(b)
        && item_or(s, a, 0) == item_or(s, b, 0)
        && apart(s, f.columns, a, b)
}

// The row that is the mate of row k.
fn mate(s: &[u64], f: Frame, k: usize) -> Option<usize> {
    let e = f.entry(s, k);
    (0..f.rows).find(|&j| are_mates(s, f, e, f.entry(s, j)))
}

// Writes the mates of all rows: the number of rows where there is none.
fn list_mates(s: &mut [u64], f: Frame) {
    for k in 0..f.rows {
        let m = mate(s, f, k).unwrap_or(f.rows);
        f.put(s, MATES, k, m as u64);
    }
}

// The weight of an entry without a mate. A limit without room has d: it costs nothing, and makes up for what is rounded
// in each column that draws on it.
fn lone_weight(s: &[u64], f: Frame, e: usize, d: u64) -> u64 {
    if !f.is_need(e) && item_or(s, e, 0) == 0 {
        d
    } else {
        0
    }
}

// The weight of row j by line k of the matrix.
fn weight(s: &[u64], f: Frame, k: usize, j: usize, d: u64) -> u64 {
    let e = f.entry(s, j);
    let m = f.get(s, MATES, j) as usize;
    if f.rows <= m {
        return lone_weight(s, f, e, d);
    }
    let mine = f.matrix(s, k, j);
    let other = f.matrix(s, k, m);
    if f.is_need(e) {
        rest(mine.wrapping_sub(other), d)
    } else {
        rest(other.wrapping_sub(mine), d)
    }
}

// The weights by line k of the matrix.
fn from_line(s: &mut [u64], f: Frame, k: usize, d: u64) {
    for j in 0..f.rows {
        f.put(s, WEIGHTS, j, weight(s, f, k, j, d));
    }
}

// Whether the weights by line k refute the problem.
fn line_refutes(s: &mut [u64], f: Frame, k: usize, d: u64) -> bool {
    if rest(pivot::value(s, f, k), d) == 0 {
        return false;
    }
    from_line(s, f, k, d);
    row_weights::refute(s, f, d)
}

// Whether the weights by some line do; they are then in their place.
pub fn refutes(s: &mut [u64], f: Frame, d: u64) -> bool {
    list_mates(s, f);
    for k in 0..f.rows {
        if line_refutes(s, f, k, d) {
            return true;
        }
    }
    false
}
