// What packed tables and packed structures share: the numbers that their bytes spell, and lists read without a bound.
#![tactic(auto)]

ghost use Rattle.std.specs.Prelude.{◌≡◌, ◌+◌, ◌*◌, ◌^◌, ◌<◌, ◌≤◌, length, get_or};
ghost use Rattle.packed.specs.Bytes.{big_endian_of, Put};

// The item at a place, or another one past the end.
pub fn item_or<T: Copy>(list: &[T], at: usize, otherwise: T) -> T
    ensures { result ≡ get_or list.now at otherwise }
{
    if at < list.len() { list[at] } else { otherwise }
}

// The number that `width` bytes from a place on spell, none of which is missing: no byte is tested for that.
fn whole(bytes: &[u8], width: usize, at: usize) -> u64
    requires { (width ≤ 8) × (at + width ≤ length bytes.now) }
    ensures { (result ≡ big_endian_of bytes.now at width) × (result < 256 ^ width) }
{
    let mut number: u64 = 0;
    for k in 0..width {
        number = number * 256 + bytes[at + k] as u64;
    }
    number
}

// The number that the i-th `width` bytes spell, the first byte highest. A byte past the end counts as 0.
pub fn big_endian(bytes: &[u8], width: usize, i: usize) -> u64
    requires { (1 ≤ width) × (width ≤ 8) }
    ensures { (result ≡ big_endian_of bytes.now (width * i) width) × (result < 256 ^ width) }
{
    // Past this bound every byte is missing, and width * i might not fit.
    if bytes.len() / width < i {
        return 0;
    }
    let at = width * i;
    if width <= bytes.len() - at {
        return whole(bytes, width, at);
    }
    let mut number: u64 = 0;
    for k in 0..width {
        number = number * 256 + item_or(bytes, at + k, 0) as u64;
    }
    number
}

// Writes a number as the i-th `width` bytes, the first byte highest.
pub fn put(bytes: &mut [u8], width: usize, i: usize, number: u64)
    requires { (width * i + width ≤ length bytes.old) × (number < 256 ^ width) }
    ensures { Put (width * i) width number bytes.old bytes.new }
{
    let at = width * i;
    let mut rest = number;
    for k in (0..width).rev() {
        bytes[at + k] = (rest % 256) as u8;
        rest /= 256;
    }
}
