// The simplex method: steps until no row's variable is negative, or a row shows that it stays so.
use crate::frame::{BASIS, Frame};
use crate::pivot::Choice;
use crate::{number, pivot};
use std::ops::ControlFlow;

// How many steps are tried.
const STEPS: usize = 400;

#[derive(Clone, Copy)]
pub enum Stage {
    // This row's variable is negative whatever the columns are taken for.
    Refuted(usize),
    // No variable is negative; the values are over this divisor.
    Vertex(u64),
    // Too many steps, or too large a number.
    Lost,
}

// The choice's variable takes the place of row r's; its size is the new divisor. None if a number is too large.
fn exchange(s: &mut [u64], f: Frame, r: usize, chosen: Choice, d: u64) -> Option<u64> {
    let p = chosen.size.cast_signed();
    if number::is_large(p) {
        return None;
    }
    pivot::pivot_lines(s, f, r, chosen.at, p, d)?;
    pivot::negate(s, f, r);
    f.put(s, BASIS, r, chosen.at as u64);
    Some(chosen.size)
}

// One step: the next divisor, or how it ends.
fn step(s: &mut [u64], f: Frame, d: u64) -> ControlFlow<Stage, u64> {
    let Some(r) = pivot::leaving(s, f) else {
        return ControlFlow::Break(Stage::Vertex(d));
    };
    let Some(chosen) = pivot::entering(s, f, r, d) else {
        return ControlFlow::Break(Stage::Refuted(r));
    };
    match exchange(s, f, r, chosen, d) {
        Some(next) => ControlFlow::Continue(next),
        None => ControlFlow::Break(Stage::Lost),
    }
}

pub fn solve(s: &mut [u64], f: Frame) -> Stage {
    let mut d: u64 = 1;
    for _ in 0..STEPS {
        match step(s, f, d) {
            ControlFlow::Continue(next) => d = next,
            ControlFlow::Break(stage) => return stage,
        }
    }
    Stage::Lost
}
