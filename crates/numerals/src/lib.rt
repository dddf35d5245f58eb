// Decimal numbers in a text.
#![tactic(auto)]

ghost use Rattle.std.specs.Prelude.{◌≡◌, suc, min, ◌+◌, ◌*◌, ◌≤◌, ◌<◌, get_or};
ghost use Rattle.numerals.specs.Number.{NumberIs, DigitIs};

use packed::item_or;

// A number that stands at a place, cut to a limit and one, and the place behind it.
#[derive(Clone, Copy)]
pub struct Number {
    pub value: u32,
    pub end: usize,
}

// The digit at a place.
fn digit_at(text: &[u8], at: usize) -> Option<u32>
    ensures { DigitIs (get_or text.now at 0) result }
{
    match item_or(text, at, 0) {
        b @ b'0'..=b'9' => Some((b - b'0') as u32),
        _ => None,
    }
}

// One more digit, cut to the limit and one.
fn grown(value: u32, digit: u32, limit: u32) -> u32
    requires { (limit < 65536) × (value ≤ limit + 1) × (digit < 10) }
    ensures { result ≡ min (value * 10 + digit) (suc limit) }
{
    (value * 10 + digit).min(limit + 1)
}

// The number at a place. Digits may be as many as the text has: a number over the limit reads as the limit and one.
#[tactic(auto, using(crate::proofs::Digits::leading_zero, crate::proofs::Digits::whole_number))]
pub fn number_at(text: &[u8], at: usize, limit: u32) -> Option<Number>
    requires { limit < 65536 }
    ensures { NumberIs text.now at limit result }
{
    let first = digit_at(text, at)?;
    let mut value = 0;
    let mut end = at;
    while let Some(digit) = digit_at(text, end) {
        value = grown(value, digit, limit);
        end += 1;
    }
    if first == 0 && end != at + 1 {
        return None;
    }
    Some(Number { value, end })
}
