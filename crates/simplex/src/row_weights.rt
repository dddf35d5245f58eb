// Weights on the rows: whether they refute the problem, and the answer made of them.
use packed::item_or;
use pivoting::frame;
use pivoting::frame::{Frame, WEIGHTS};
use pivoting::number::product;

// A weighted sum of needs and one of limits.
#[derive(Clone, Copy, Default)]
pub struct Sides {
    pub needs: u64,
    pub limits: u64,
}

impl Sides {
    // With so much more for an entry.
    fn more(self, f: Frame, e: usize, x: u64) -> Sides {
        if f.is_need(e) {
            Sides {
                needs: self.needs.wrapping_add(x),
                ..self
            }
        } else {
            Sides {
                limits: self.limits.wrapping_add(x),
                ..self
            }
        }
    }

    // Whether the needs, rounded up over r, are more than the limits, rounded down.
    pub fn exceeds(self, r: u64) -> bool {
        r != 0 && self.limits / r < self.needs.div_ceil(r)
    }
}

// The weights of the needs that a column has, and of the limits that it lacks.
fn of_column(s: &[u64], f: Frame, v: usize) -> Sides {
    let c = frame::code(s, v);
    let mut sides = Sides::default();
    for k in 0..f.rows {
        let e = f.entry(s, k);
        if f.counts(c, e) {
            sides = sides.more(f, e, f.get(s, WEIGHTS, k));
        }
    }
    sides
}

// The weighted bounds.
fn of_bounds(s: &[u64], f: Frame) -> Sides {
    let mut sides = Sides::default();
    for k in 0..f.rows {
        let e = f.entry(s, k);
        let x = product(f.get(s, WEIGHTS, k), item_or(s, e, 0));
        sides = sides.more(f, e, x);
    }
    sides
}

// Whether the weights with the divisor r refute the problem: no column exceeds, and the bounds do.
pub fn refute(s: &[u64], f: Frame, r: u64) -> bool {
    (0..f.columns).all(|v| !of_column(s, f, v).exceeds(r)) && of_bounds(s, f).exceeds(r)
}

// The weights by which row r shows that its variable stays negative.
pub fn from_row(s: &mut [u64], f: Frame, r: usize) {
    for k in 0..f.rows {
        let weight = f.matrix(s, r, k).min(0).unsigned_abs();
        f.put(s, WEIGHTS, k, weight);
    }
}

// Zeros from a place up to another.
pub fn clear(s: &mut [u64], from: usize, to: usize) {
    if let Some(part) = s.get_mut(from..to) {
        part.fill(0);
    }
}

// The weights by entry, in the place of the bounds.
pub fn hand_out(s: &mut [u64], f: Frame) {
    clear(s, 0, 64);
    for k in 0..f.rows {
        let e = f.entry(s, k);
        frame::write(s, e, f.get(s, WEIGHTS, k));
    }
}
