// One step of the simplex method: a row whose variable is negative, a variable that can take its place, and the exchange.
// The matrix is whole numbers over a common divisor d, so nothing is rounded.
use crate::frame;
use crate::frame::{Frame, number_at};
use crate::number::{is_large, over, product, times};

// A variable that can take the place of a row's, the size of its coefficient in that row, and its price.
#[derive(Clone, Copy)]
pub struct Choice {
    pub at: usize,
    pub size: u64,
    pub price: u64,
}

impl Choice {
    // Whether it is better than another: a lower price for its size, or at the same the smaller size.
    fn beats(self, other: Choice) -> bool {
        let mine = product(self.price, other.size);
        let theirs = product(other.price, self.size);
        mine < theirs || mine == theirs && self.size < other.size
    }
}

// A number with the sign of a row: a limit counts downwards.
fn signed(f: Frame, e: usize, x: i64) -> i64 {
    if f.is_need(e) { x } else { x.wrapping_neg() }
}

// The value of row k's variable, times d.
pub fn value(s: &[u64], f: Frame, k: usize) -> i64 {
    let at = f.matrix_line(k);
    let mut total: i64 = 0;
    for j in 0..f.rows {
        let e = f.entry(s, j);
        let x = number_at(s, at.wrapping_add(j));
        total = total.wrapping_add(signed(f, e, times(x, number_at(s, e))));
    }
    total
}

// Line k of the matrix times column v.
fn along(s: &[u64], f: Frame, k: usize, v: usize) -> i64 {
    let c = frame::code(s, v);
    let at = f.matrix_line(k);
    let mut total: i64 = 0;
    for j in 0..f.rows {
        let e = f.entry(s, j);
        if f.counts(c, e) {
            total = total.wrapping_add(signed(f, e, number_at(s, at.wrapping_add(j))));
        }
    }
    total
}

// Line k of the matrix times a variable's column, or the slack's.
fn coefficient(s: &[u64], f: Frame, k: usize, v: usize) -> i64 {
    if v < f.columns {
        along(s, f, k, v)
    } else {
        f.matrix(s, k, v - f.columns).wrapping_neg()
    }
}

// What a variable costs: a column costs as much as the limits that it draws on.
fn cost(s: &[u64], f: Frame, v: usize) -> u64 {
    if v < f.columns {
        f.limits.minus(frame::code(s, v)).len() as u64
    } else {
        0
    }
}

// What a variable costs beyond what it saves, times d.
fn price(s: &[u64], f: Frame, v: usize, d: u64) -> i64 {
    product(cost(s, f, v), d)
        .cast_signed()
        .wrapping_sub(coefficient(s, f, f.rows, v))
}

// The row whose variable is the most negative, if one is negative.
pub fn leaving(s: &[u64], f: Frame) -> Option<usize> {
    let mut found = None;
    let mut least: i64 = 0;
    for k in 0..f.rows {
        let x = value(s, f, k);
        if x < least {
            least = x;
            found = Some(k);
        }
    }
    found
}

// Variable v as a choice for row r, if it has a negative coefficient there. A negative price counts as the highest.
fn candidate(s: &[u64], f: Frame, r: usize, v: usize, d: u64) -> Option<Choice> {
    let a = coefficient(s, f, r, v);
    if 0 <= a {
        return None;
    }
    Some(Choice {
        at: v,
        size: a.unsigned_abs(),
        price: price(s, f, v, d).cast_unsigned(),
    })
}

// The best variable that can take the place of row r's.
pub fn entering(s: &[u64], f: Frame, r: usize, d: u64) -> Option<Choice> {
    (0..f.columns.wrapping_add(f.rows))
        .filter_map(|v| candidate(s, f, r, v, d))
        .reduce(|best, next| if next.beats(best) { next } else { best })
}

// Adds to the word at a place so much of another that the entering variable goes: it has a in the one's line and -p in the
// other's. d is the old divisor. None if the number is too large.
fn mix(s: &mut [u64], to: usize, from: usize, a: i64, p: i64, d: u64) -> Option<()> {
    let sum = times(p, number_at(s, to)).wrapping_add(times(a, number_at(s, from)));
    let x = over(sum, d);
    if is_large(x) {
        return None;
    }
    frame::write(s, to, x.cast_unsigned());
    Some(())
}

// The same for line i, with line r.
fn combine(s: &mut [u64], f: Frame, i: usize, r: usize, a: i64, p: i64, d: u64) -> Option<()> {
    let to = f.matrix_line(i);
    let from = f.matrix_line(r);
    for j in 0..f.rows {
        mix(s, to.wrapping_add(j), from.wrapping_add(j), a, p, d)?;
    }
    Some(())
}

// What the entering variable has in line i; the last line has the costs.
fn pivot_line(s: &mut [u64], f: Frame, i: usize, r: usize, v: usize, p: i64, d: u64) -> Option<()> {
    let a = if i < f.rows {
        coefficient(s, f, i, v)
    } else {
        price(s, f, v, d).wrapping_neg()
    };
    if is_large(a) {
        return None;
    }
    combine(s, f, i, r, a, p, d)
}

// All lines but line r; None if a number grew too large.
pub fn pivot_lines(s: &mut [u64], f: Frame, r: usize, v: usize, p: i64, d: u64) -> Option<()> {
    for i in 0..=f.rows {
        if i != r {
            pivot_line(s, f, i, r, v, p, d)?;
        }
    }
    Some(())
}

// Line r with the other sign.
pub fn negate(s: &mut [u64], f: Frame, r: usize) {
    let line = f.matrix_line(r);
    for j in 0..f.rows {
        let at = line.wrapping_add(j);
        let x = number_at(s, at).wrapping_neg();
        frame::write(s, at, x.cast_unsigned());
    }
}
