// Signed sums and products of times, tested for overflow.
ghost use Rattle.std.specs.Prelude.{◌≡◌, ◌<◌, ◌*ℤ◌, pos};
ghost use Rattle.times.specs.Sums.{checked, signed, Adds};

use numerals::Whole;

// a + b, if it is an i64.
pub fn add(a: i64, b: i64) -> Option<i64>
    ensures { Adds a b result }
{
    a.checked_add(b)
}

// The i64 of a sign and a magnitude, if it is one.
pub fn whole(w: Whole) -> Option<i64>
    ensures { result ≡ checked (signed w.negative w.magnitude) }
{
    let size = w.magnitude;
    if w.negative {
        if 9223372036854775808 < size {
            return None;
        }
        if size == 0 {
            return Some(0);
        }
        // 2^63 itself is no i64, so one comes off before the cast
        return Some(-1 - ((size - 1) as i64));
    }
    if 9223372036854775807 < size {
        return None;
    }
    Some(size as i64)
}

// A whole number of units, each so many microseconds.
pub fn times(w: Whole, unit: u64) -> Option<i64>
    requires { 0 < unit }
    ensures { result ≡ checked (signed w.negative w.magnitude *ℤ pos unit) }
{
    whole(Whole {
        negative: w.negative,
        magnitude: w.magnitude.checked_mul(unit)?,
    })
}
