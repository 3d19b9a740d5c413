#![tactic(auto)]
// Whole numbers as Rust's `parse` and `from_str_radix` read them: an optional `+`, a `-` where the
// type has one, at least one digit, nothing else; a number past the largest is no number. One reader
// serves every type, by the radix, the largest value and whether a minus is taken.
mod write;

ghost use Rattle.std.specs.Prelude.{Some, None, ◌≡◌, cond, ◌+◌, ◌*◌, ◌≤◌, ◌<◌, ◌^◌, leb, length};
ghost use Rattle.numerals.specs.Numerals.{digit_of, up_to, unsigned_of, signed_by_of, numeral_of};

pub use write::{decimal_width, put_digits};

#[derive(Clone, Copy)]
pub struct Whole {
    pub negative: bool,
    pub magnitude: u64,
}

// A digit's value: the letters, capital or small, are 10 to 35. Any other byte answers 36.
#[tactic(auto, unfolding(crate::specs::Numerals::digit_of))]
pub fn digit(b: u8) -> u64
    ensures { result ≡ digit_of b }
{
    match b {
        b'0'..=b'9' => u64::from(b - b'0'),
        b'A'..=b'Z' => u64::from(b - b'A') + 10,
        b'a'..=b'z' => u64::from(b - b'a') + 10,
        _ => 36,
    }
}

// The value of one digit more, up to the largest.
fn one_more(value: u64, radix: u64, d: u64, most: u64) -> Option<u64>
    requires { (2 ≤ radix) × (radix ≤ 36) × (d < radix) }
    ensures { result ≡ up_to (value * radix + d) most }
{
    // below 2^58 no product passes 64 bits, and there is nothing to divide
    let next = if value < 1 << 58 {
        value * radix + d
    } else {
        value.checked_mul(radix)?.checked_add(d)?
    };
    (next <= most).then_some(next)
}

// The value of digits alone, up to the largest.
pub fn read_unsigned(digits: &[u8], radix: u64, most: u64) -> Option<u64>
    requires { (2 ≤ radix) × (radix ≤ 36) }
    ensures { result ≡ unsigned_of digits.now radix most }
{
    if digits.is_empty() {
        return None;
    }
    let mut value = 0;
    for &b in digits {
        let d = digit(b);
        if radix <= d {
            return None;
        }
        value = one_more(value, radix, d, most)?;
    }
    Some(value)
}

// The number that the whole text spells, in the radix, from 0 (or, with a minus, from -most - 1) to most.
pub fn read_numeral(text: &[u8], radix: u64, most: u64, minus: bool) -> Option<Whole>
    requires { (2 ≤ radix) × (radix ≤ 36) × (most < 2 ^ 63) }
    ensures { result ≡ numeral_of text.now radix most minus }
{
    match text {
        [b'+', digits @ ..] => signed(false, read_unsigned(digits, radix, most)),
        [b'-', digits @ ..] if minus => signed(true, read_unsigned(digits, radix, most + 1)),
        _ => signed(false, read_unsigned(text, radix, most)),
    }
}

fn signed(negative: bool, size: Option<u64>) -> Option<Whole>
    ensures { result ≡ signed_by_of negative size }
{
    size.map(|magnitude| Whole {
        negative,
        magnitude,
    })
}
