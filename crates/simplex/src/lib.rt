// Weights that refute a counting problem, or copies of its columns that solve it, found by the simplex method. Nothing is
// promised of what is found: whoever asks checks it.
#![tactic(auto)]

pub mod rounding;
pub mod row_weights;

use pivoting::frame::{BASIS, Frame};
use pivoting::number::{over, rest};
use pivoting::solve::Stage;
use pivoting::{frame, pivot, solve, start};
use sets::Set;

// The copies to try first where nothing speaks for a number: as many as are of use.
const MOST: u64 = 65536;

#[derive(Clone, Copy)]
pub enum Verdict {
    // Words 0 to 63 are weights by entry, and this is their divisor.
    Weights(u64),
    // The words of the columns are the copies of each.
    Copies,
    // Neither was found, and bounds and columns are as they were. This column is the one to branch on, with so many copies of
    // it first.
    Unknown(usize, u64),
}

// Nothing is known, not even a column.
const LOST: Verdict = Verdict::Unknown(0, MOST);

// A column of the basis whose value, times d, is not whole.
#[derive(Clone, Copy)]
struct Broken {
    column: usize,
    value: i64,
}

// The variable of row k, if it is a column and is not whole.
fn broken_in(s: &[u64], f: Frame, k: usize, d: u64) -> Option<Broken> {
    let column = f.get(s, BASIS, k) as usize;
    if f.columns <= column {
        return None;
    }
    let value = pivot::value(s, f, k);
    if rest(value, d) == 0 {
        return None;
    }
    Some(Broken { column, value })
}

// The column with the smallest value that is not whole.
fn smallest(s: &[u64], f: Frame, d: u64) -> Option<Broken> {
    (0..f.rows)
        .filter_map(|k| broken_in(s, f, k, d))
        .min_by_key(|b| b.value)
}

// The value of row k's variable, as the copies of its column.
fn put_copies(s: &mut [u64], f: Frame, k: usize, d: u64) {
    let column = f.get(s, BASIS, k) as usize;
    if column < f.columns {
        let copies = over(pivot::value(s, f, k), d);
        frame::write(s, column.wrapping_add(64), copies.cast_unsigned());
    }
}

// The values of the columns, in the place of their codes.
fn hand_out(s: &mut [u64], f: Frame, d: u64) {
    row_weights::clear(s, 64, f.columns.wrapping_add(64));
    for k in 0..f.rows {
        put_copies(s, f, k, d);
    }
}

// The weights by which row r's variable stays negative, if they refute.
fn by_row(s: &mut [u64], f: Frame, r: usize) -> Verdict {
    row_weights::from_row(s, f, r);
    if !row_weights::refute(s, f, 1) {
        return LOST;
    }
    row_weights::hand_out(s, f);
    Verdict::Weights(1)
}

// What the values of the variables give: copies if they are whole, else weights that round, else a column to branch on, with
// its value rounded.
fn by_vertex(s: &mut [u64], f: Frame, d: u64) -> Verdict {
    let Some(broken) = smallest(s, f, d) else {
        hand_out(s, f, d);
        return Verdict::Copies;
    };
    if rounding::refutes(s, f, d) {
        row_weights::hand_out(s, f);
        return Verdict::Weights(d);
    }
    let copies = over(broken.value.wrapping_add((d / 2).cast_signed()), d);
    Verdict::Unknown(broken.column, copies.cast_unsigned())
}

// Whether all lines fit.
fn fits(words: usize, f: Frame) -> bool {
    f.line(f.rows.wrapping_add(5)) <= words
}

// Words 0 to 63 are what the needs lack and the room of the limits, by entry, then come the codes of the columns. With r
// rows, 64 + columns + r * (r + 5) words are used, and with fewer the answer is unknown. What is in those behind the columns
// does not matter.
pub fn relax(s: &mut [u64], needs: Set, limits: Set, columns: usize) -> Verdict {
    if s.len() < columns {
        return LOST;
    }
    let none = Frame {
        needs,
        limits,
        columns,
        rows: 0,
    };
    let rows = start::list_rows(s, none);
    let f = Frame { rows, ..none };
    if !fits(s.len(), f) {
        return LOST;
    }
    start::start(s, f);
    match solve::solve(s, f) {
        Stage::Refuted(r) => by_row(s, f, r),
        Stage::Vertex(d) => by_vertex(s, f, d),
        Stage::Lost => LOST,
    }
}
