// Whole numbers, negative ones too. What passes a word wraps, and factors are cut: whoever uses these numbers checks what comes
// out.
ghost use Rattle.std.specs.Prelude.{◌≤◌};

// Numbers from here on are given up.
const TOP: u64 = 1073741824;

pub fn is_large(a: i64) -> bool {
    TOP <= a.unsigned_abs()
}

// A size with the sign of a number.
fn signed(size: u64, like: i64) -> i64 {
    let a = size.cast_signed();
    if like < 0 { a.wrapping_neg() } else { a }
}

// A size as a factor.
fn factor(a: u64) -> u64
    ensures { result ≤ 2147483647 }
{
    a.min(2147483647)
}

// The product of two sizes.
pub fn product(a: u64, b: u64) -> u64 {
    factor(a) * factor(b)
}

pub fn times(a: i64, b: i64) -> i64 {
    signed(product(a.unsigned_abs(), b.unsigned_abs()), a ^ b)
}

// The quotient by a size, cut towards 0.
pub fn over(a: i64, d: u64) -> i64 {
    signed(a.unsigned_abs().checked_div(d).unwrap_or(0), a)
}

// What is left of a number over a size: from 0 to below the size.
pub fn rest(a: i64, d: u64) -> u64 {
    a.checked_rem_euclid(d.cast_signed())
        .unwrap_or(0)
        .cast_unsigned()
}
