// A size: its f32 and the spelling that Rust's `{}` prints for it.
ghost use Rattle.std.specs.Prelude.{◌≡◌, ◌+◌, ◌^◌, ◌<◌, ◌≤◌, false, length, is_nan};
ghost use Rattle.scan.specs.Posts.{Appended, Wrote};
ghost use Rattle.decimals.specs.Floats.{same_float};
ghost use Rattle.decimals.specs.Size.{reduced, size_of, within_size, is_spelling, is_size, spelled_value, spelled_bits, spelling};

use crate::read::Digits;

// The spelling is that of digits / 10^scale, with no zero at the end behind the point.
#[derive(Clone, Copy)]
pub struct Size {
    pub value: f32,
    pub negative: bool,
    pub digits: u32,
    pub scale: u32,
}

// The decimal without zeros at its end behind the point.
#[tactic(auto, unfolding(crate::specs::Size::reduced))]
fn reduce(d: Digits) -> Digits
    requires { d.scale ≤ 10 }
    ensures { result ≡ reduced d }
{
    let mut least = d;
    while 0 < least.scale && least.digits % 10 == 0 {
        least.digits /= 10;
        least.scale -= 1;
    }
    least
}

// The size that a decimal of at most 6 digits, at most 10 of them behind the point, means.
pub fn size_of(d: Digits) -> Size
    requires { (d.digits < 10 ^ 6) × (d.scale ≤ 10) }
    ensures { result ≡ size_of d }
{
    let least = reduce(d);
    Size {
        value: crate::floats::to_f32(least),
        negative: least.negative,
        digits: least.digits as u32,
        scale: least.scale,
    }
}

// Are there at most 6 digits, and at most 10 of them behind the point?
fn within_size(digits: u32, scale: u32) -> bool
    ensures { result ≡ within_size digits scale }
{
    digits <= 999999 && scale <= 10
}

// Is it a spelling: within the limits, with no zero at its end behind the point?
pub fn is_spelling(digits: u32, scale: u32) -> bool
    ensures { result ≡ is_spelling digits scale }
{
    within_size(digits, scale) && (scale == 0 || digits % 10 != 0)
}

// The f32 that a spelling means; 0 past the limits.
#[tactic(auto, unfolding(crate::specs::Size::spelled_value))]
pub fn spelled_value(negative: bool, digits: u32, scale: u32) -> f32
    ensures { result ≡ spelled_value negative digits scale }
{
    if within_size(digits, scale) {
        crate::floats::to_f32(Digits {
            negative,
            digits: digits as u64,
            scale,
        })
    } else {
        0.0
    }
}

// Its bits.
#[tactic(auto, using(crate::proofs::Sizes::size_tests), unfolding(crate::specs::Size::spelled_bits))]
pub fn spelled_bits(negative: bool, digits: u32, scale: u32) -> u32
    ensures { result ≡ spelled_bits negative digits scale }
{
    f32::to_bits(spelled_value(negative, digits, scale))
}

// Is it a size: a spelling, and its f32?
#[tactic(auto, using(crate::proofs::Sizes::size_tests))]
pub fn is_size(s: Size) -> bool
    ensures { result ≡ is_size s }
{
    is_spelling(s.digits, s.scale)
        && same_bits(spelled_value(s.negative, s.digits, s.scale), s.value)
}

// Are the two the same f32, the sign of zero counting?
#[tactic(auto, using(crate::proofs::Sizes::same_nan, crate::proofs::Sizes::bits_same))]
fn same_bits(a: f32, b: f32) -> bool
    requires { is_nan a ≡ false }
    ensures { result ≡ same_float b a }
{
    !b.is_nan() && f32::to_bits(a) == f32::to_bits(b)
}

// How many bytes the spelling has.
fn spelling_width(s: Size) -> usize
    requires { s.scale ≤ 10 }
    ensures { result ≡ length (spelling s.negative s.digits s.scale) }
{
    let sign = usize::from(s.negative);
    let whole = numerals::decimal_width(s.digits as u64 / 10_u64.pow(s.scale));
    if s.scale == 0 {
        return sign + whole;
    }
    sign + whole + 1 + s.scale as usize
}

fn put_size(out: &mut [u8], at: usize, s: Size) -> usize
    requires { (at + length (spelling s.negative s.digits s.scale) ≤ length out.old) × (s.scale ≤ 10) }
    ensures { Appended (spelling s.negative s.digits s.scale) at out.old out.new result }
{
    let start = if s.negative {
        out[at] = b'-';
        at + 1
    } else {
        at
    };
    let p = 10_u64.pow(s.scale);
    let whole = s.digits as u64 / p;
    let end = numerals::put_digits(out, start, whole, 10, numerals::decimal_width(whole));
    if s.scale == 0 {
        return end;
    }
    out[end] = b'.';
    numerals::put_digits(out, end + 1, s.digits as u64 % p, 10, s.scale as usize)
}

// The spelling written at a place, if it fits.
pub fn spell(out: &mut [u8], at: usize, s: Size) -> Option<usize>
    requires { (at ≤ length out.old) × (s.scale ≤ 10) }
    ensures { Wrote (spelling s.negative s.digits s.scale) at out.old out.new result }
{
    if out.len() - at < spelling_width(s) {
        return None;
    }
    Some(put_size(out, at, s))
}
