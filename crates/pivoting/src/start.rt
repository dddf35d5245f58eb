// The rows, and the basis to begin with: all slack.
use crate::frame;
use crate::frame::{BASIS, Frame, MATRIX};
use packed::item_or;
use sets::Set;

// Whether some column lacks an entry.
fn lacked(s: &[u64], columns: usize, e: usize) -> bool {
    (0..columns).any(|v| !frame::code(s, v).contains(e))
}

// Whether every column that has an entry has another.
fn included(s: &[u64], columns: usize, a: usize, b: usize) -> bool {
    (0..columns).all(|v| {
        let c = frame::code(s, v);
        !c.contains(a) || c.contains(b)
    })
}

// Whether an entry's bound is as strict as another's, for both needs, or both limits.
fn is_strict(s: &[u64], f: Frame, a: usize, b: usize) -> bool {
    if f.is_need(a) {
        item_or(s, b, 0) <= item_or(s, a, 0)
    } else {
        item_or(s, a, 0) <= item_or(s, b, 0)
    }
}

// Whether an entry asks for all that another of its kind asks for.
fn includes(s: &[u64], f: Frame, a: usize, b: usize) -> bool {
    is_strict(s, f, a, b) && included(s, f.columns, a, b)
}

// The same, but not both ways: of two that ask for the same, the first stays.
fn implies(s: &[u64], f: Frame, a: usize, b: usize) -> bool {
    includes(s, f, a, b) && (a < b || !includes(s, f, b, a))
}

// Whether an entry of a kind is implied by another.
fn is_implied(s: &[u64], f: Frame, kind: Set, e: usize) -> bool {
    (0..64).any(|other| kind.contains(other) && implies(s, f, other, e))
}

// Whether an entry is a row: a need that lacks something, or a limit that some column draws on, and not implied.
fn is_row(s: &[u64], f: Frame, e: usize) -> bool {
    if f.is_need(e) {
        item_or(s, e, 0) != 0 && !is_implied(s, f, f.needs, e)
    } else {
        f.limits.contains(e) && lacked(s, f.columns, e) && !is_implied(s, f, f.limits, e)
    }
}

// Writes the rows' entries, and counts them.
pub fn list_rows(s: &mut [u64], f: Frame) -> usize {
    let mut rows: usize = 0;
    for e in 0..64 {
        if is_row(s, f, e) {
            f.put(s, 0, rows, e as u64);
            rows += 1;
        }
    }
    rows
}

// A line of the matrix to begin with: a slack is what the row has beyond its bound.
fn start_line(s: &mut [u64], f: Frame, k: usize) {
    for j in 0..f.rows {
        let x: i64 = if j == k { -1 } else { 0 };
        f.put(s, MATRIX.wrapping_add(k), j, x.cast_unsigned());
    }
}

// The matrix and the basis to begin with.
pub fn start(s: &mut [u64], f: Frame) {
    for k in 0..f.rows {
        f.put(s, BASIS, k, f.columns.wrapping_add(k) as u64);
        start_line(s, f, k);
    }
    start_line(s, f, f.rows);
}
