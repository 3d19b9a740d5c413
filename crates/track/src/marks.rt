// A timestamp's time in two cells, and a font's size in the bits of one.
ghost use Rattle.std.specs.Prelude.{◌≡◌, ◌+◌, ◌*◌, ◌%◌, ◌/◌};
ghost use Rattle.track.specs.Tables.{time_from, marked_size};
ghost use Rattle.track.specs.Layout.{time_bits, size_marks, size_bits};
ghost use Rattle.track.specs.Meaning.{is_marked};

use decimals::Size;

// The time of these halves of its bits. Counted down where it is negative: no cast changes a number.
pub fn time_from(low: u32, high: u32) -> i64
    ensures { result ≡ time_from (low + high * 4294967296) }
{
    let bits = low as u64 + high as u64 * 4294967296;
    if bits < 9223372036854775808 {
        return bits as i64;
    }
    -1 - (18446744073709551615 - bits) as i64
}

// The 64 bits of a time.
pub fn time_bits(t: i64) -> u64
    ensures { result ≡ time_bits t }
{
    if 0 <= t {
        return t as u64;
    }
    18446744073709551615 - (-1 - t) as u64
}

// The sign of a size, its scale and its digits; 0 where there is none.
pub fn size_marks(has: bool, s: Size) -> u32
    ensures { result ≡ size_marks has s }
{
    if !has {
        return 0;
    }
    let sign = if s.negative { 2 } else { 1 };
    sign * 2 + s.scale % 16 * 8 + s.digits % 33554432 * 128
}

// The bits of its f32.
pub fn size_bits(has: bool, s: Size) -> u32
    ensures { result ≡ size_bits has s }
{
    if !has {
        return 0;
    }
    decimals::spelled_bits(s.negative, s.digits, s.scale)
}

// Are these the marks of a size, or of none, and the bits of its f32?
#[tactic(auto, unfolding(crate::specs::Meaning::is_marked))]
pub fn is_marked(marks: u32, bits: u32) -> bool
    ensures { result ≡ is_marked marks bits }
{
    let sign = marks / 2 % 4;
    let digits = marks / 128;
    let scale = marks / 8 % 16;
    sign == 0
        || sign <= 2
            && decimals::is_spelling(digits, scale)
            && bits == decimals::spelled_bits(sign == 2, digits, scale)
}

// The size that the marks say.
pub fn marked_size(marks: u32) -> Size
    ensures { result ≡ marked_size marks }
{
    let sign = marks / 2 % 4;
    let digits = marks / 128;
    let scale = marks / 8 % 16;
    let value = decimals::spelled_value(sign == 2, digits, scale);
    crate::parts::size_at(sign, digits, scale, value)
}
