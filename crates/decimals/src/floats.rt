// The value of a decimal as a float, by one division, and a float cut to an i64.
ghost use Rattle.std.specs.Prelude.{◌≡◌, ◌^◌, ◌<◌, ◌≤◌};
ghost use Rattle.std.specs.Float.Ieee as Ieee;
ghost use Rattle.std.specs.Float.{binary32, binary64};
ghost use Rattle.decimals.specs.Floats.{value_in_of};
ghost use Rattle.decimals.specs.Steps.{Middling};

use crate::read::Digits;

// Each is a float exactly: 10^22 has 52 binary digits after its factors of two, 10^10 has 24.
const POWERS_OF_TEN: [f64; 23] = [
    1.0,
    10.0,
    100.0,
    1000.0,
    10000.0,
    100000.0,
    1000000.0,
    10000000.0,
    100000000.0,
    1000000000.0,
    10000000000.0,
    100000000000.0,
    1000000000000.0,
    10000000000000.0,
    100000000000000.0,
    1000000000000000.0,
    10000000000000000.0,
    100000000000000000.0,
    1000000000000000000.0,
    10000000000000000000.0,
    100000000000000000000.0,
    1000000000000000000000.0,
    10000000000000000000000.0,
];

const POWERS_OF_TEN_32: [f32; 11] = [
    1.0,
    10.0,
    100.0,
    1000.0,
    10000.0,
    100000.0,
    1000000.0,
    10000000.0,
    100000000.0,
    1000000000.0,
    10000000000.0,
];

// The f64 nearest to the decimal. Both operands are exact, so the division alone rounds.
pub fn to_f64(d: Digits) -> f64
    requires { (d.digits < 10 ^ 15) × (d.scale ≤ 22) }
    ensures { result ≡ value_in_of binary64 d.negative d.digits d.scale }
{
    let scale = d.scale as usize;
    let size = d.digits as f64 / POWERS_OF_TEN[scale];
    if d.negative { -size } else { size }
}

// The f32 nearest to the decimal, likewise.
pub fn to_f32(d: Digits) -> f32
    requires { (d.digits < 10 ^ 6) × (d.scale ≤ 10) }
    ensures { result ≡ value_in_of binary32 d.negative d.digits d.scale }
{
    let scale = d.scale as usize;
    let size = std::num::nearest_u32_to_f32(d.digits as u32) / POWERS_OF_TEN_32[scale];
    if d.negative { -size } else { size }
}

// The whole part of a float that is 1 or more and below 2^63, from its bits: `digits` binary digits,
// the leading one counted, moved by the exponent.
fn whole_part(x: f64) -> u64
    requires { Middling x }
    ensures { result ≡ Ieee.to_unsigned 64 x }
{
    let bits: u64 = f64::to_bits(x);
    let exponent: u64 = bits >> 52;
    let digits: u64 = bits % 0x10_0000_0000_0000 + 0x10_0000_0000_0000;
    if exponent <= 1075 {
        digits >> (1075 - exponent)
    } else {
        digits << (exponent - 1075)
    }
}

// Cut toward zero, and to the nearest i64 where it is past them; NaN gives 0. Rust's `as i64`.
pub fn truncate(x: f64) -> i64
    ensures { result ≡ Ieee.to_signed 63 x }
{
    if x >= 9223372036854775808.0 {
        return 9223372036854775807;
    }
    if x >= 1.0 {
        return whole_part(x) as i64;
    }
    if x <= -9223372036854775808.0 {
        return -9223372036854775807 - 1;
    }
    if x <= -1.0 {
        return 0 - (whole_part(-x) as i64);
    }
    0
}
