// C names for decimals and sizes. What an answer fills is written only where it is one.
ghost use Rattle.std.specs.Prelude.{◌≡◌, ◌≤◌, ◌<◌, ◌^◌, length, ltb};
ghost use Rattle.std.proofs.lemmas.List.Edits.{sets};
ghost use Rattle.std.specs.Float.Ieee as Ieee;
ghost use Rattle.decimals.specs.Decimal.{decimal_of};
ghost use Rattle.decimals.specs.Size.{size_of, is_size};
ghost use Rattle.probe.specs.Answers.{Answered};
ghost use Rattle.probe.specs.Decimals.{will_read, kind_of, digit_cells, decimal_cells, float_cells, SizePut, Sized, width_of};

use decimals::{DecimalError, Digits, Size};

// A decimal's digits, how many stand behind the point, and 1 for a minus, in the first three cells.
fn put_digits(d: Digits, out: &mut [u64])
    requires { 3 ≤ length out.old }
    ensures { out.new ≡ sets out.old 0 (digit_cells d) }
{
    out[0] = d.digits;
    out[1] = d.scale as u64;
    out[2] = d.negative as u64;
}

// The decimal that the text spells within the limits: 0 none, 1 one, 2 one past them. Its digits,
// how many stand behind the point, and 1 for a minus go to the first three cells. 3 if there are
// fewer, the limit of digits is above 18, or that behind the point is 2^32 or more.
pub fn probe_decimal(text: &[u8], digits: u64, decimals: u64, out: &mut [u64]) -> u32
    ensures { Answered (will_read digits decimals out.old) (kind_of (decimal_of text.now digits decimals))
        (decimal_cells (decimal_of text.now digits decimals)) 3 out.old out.new result }
{
    if out.len() < 3 || 18 < digits || 0xFFFF_FFFF < decimals {
        return 3;
    }
    match decimals::read_decimal(text, digits as usize, decimals as usize) {
        Ok(d) => {
            put_digits(d, out);
            1
        }
        Err(DecimalError::Invalid) => 0,
        Err(DecimalError::Beyond) => 2,
    }
}

// The same as an f64, within the limits of times: 3 if there is no cell.
pub fn probe_decimal_f64(text: &[u8], out: &mut [f64]) -> u32
    ensures { Answered (ltb 0 (length out.old)) (kind_of (decimal_of text.now 15 22))
        (float_cells (decimal_of text.now 15 22)) 3 out.old out.new result }
{
    if out.is_empty() {
        return 3;
    }
    match decimals::read_decimal(text, 15, 22) {
        Ok(d) => {
            out[0] = decimals::to_f64(d);
            1
        }
        Err(DecimalError::Invalid) => 0,
        Err(DecimalError::Beyond) => 2,
    }
}

// A float cut to an i64.
pub fn probe_truncate(x: f64) -> i64
    ensures { result ≡ Ieee.to_signed 63 x }
{
    decimals::truncate(x)
}

// 1: the size's f32 is in the first cell, and its spelling at the start of the bytes; 3: that does
// not fit.
fn put_size(d: Digits, spelling: &mut [u8], out: &mut [f32]) -> u32
    requires { (0 < length out.old) × (d.digits < 10 ^ 6) × (d.scale ≤ 10) }
    ensures { SizePut (size_of d) spelling.old spelling.new out.old out.new result }
{
    let size = decimals::size_of(d);
    match decimals::spell(spelling, 0, size) {
        Some(_) => {
            out[0] = size.value;
            1
        }
        None => 3,
    }
}

// The size that the text spells: 0 none, 1 one, with its f32 in the first cell and its spelling at
// the start of the bytes, 2 one past the limits. 3 if there is no cell, or the spelling of a size
// does not fit.
pub fn probe_size(text: &[u8], spelling: &mut [u8], out: &mut [f32]) -> u32
    ensures { Sized (decimal_of text.now 6 10) spelling.old spelling.new out.old out.new
        result }
{
    if out.is_empty() {
        return 3;
    }
    match decimals::read_decimal(text, 6, 10) {
        Ok(d) => put_size(d, spelling, out),
        Err(DecimalError::Invalid) => 0,
        Err(DecimalError::Beyond) => 2,
    }
}

// How many bytes the spelling of the size has that the text spells, at most 18, or 0.
pub fn probe_size_width(text: &[u8]) -> usize
    ensures { result ≡ width_of (decimal_of text.now 6 10) }
{
    match decimals::read_decimal(text, 6, 10) {
        Ok(d) => {
            let mut spelling = [0u8; 18];
            decimals::spell(&mut spelling, 0, decimals::size_of(d)).unwrap_or(0)
        }
        Err(_) => 0,
    }
}

// Is it a size: an f32, and a spelling that is its own?
pub fn probe_is_size(value: f32, negative: bool, digits: u32, scale: u32) -> bool
    ensures { result ≡ is_size (record { value = value; negative = negative; digits = digits; scale = scale }) }
{
    decimals::is_size(Size {
        value,
        negative,
        digits,
        scale,
    })
}
