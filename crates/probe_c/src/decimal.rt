// C names for decimals and sizes. What an answer fills is written only where it is one.
ghost use Rattle.std.specs.Prelude.{◌≡◌, length, ltb};
ghost use Rattle.std.specs.Float.Ieee as Ieee;
ghost use Rattle.decimals.specs.Decimal.{decimal_of};
ghost use Rattle.decimals.specs.Size.{is_size};
ghost use Rattle.probe.specs.Answers.{Answered};
ghost use Rattle.probe.specs.Decimals.{will_read, kind_of, decimal_cells, float_cells, Sized, width_of};

// The decimal that the text spells within the limits: 0 none, 1 one, 2 one past them. Its digits,
// how many stand behind the point, and 1 for a minus go to the first three cells. 3 if there are
// fewer, the limit of digits is above 18, or that behind the point is 2^32 or more.
#[unsafe(no_mangle)]
pub extern "C" fn probe_decimal(text: &[u8], digits: u64, decimals: u64, out: &mut [u64]) -> u32
    ensures { Answered (will_read digits decimals out.old) (kind_of (decimal_of text.now digits decimals))
        (decimal_cells (decimal_of text.now digits decimals)) 3 out.old out.new result }
{
    probe::probe_decimal(text, digits, decimals, out)
}

// The same as an f64, within the limits of times: 3 if there is no cell.
#[unsafe(no_mangle)]
pub extern "C" fn probe_decimal_f64(text: &[u8], out: &mut [f64]) -> u32
    ensures { Answered (ltb 0 (length out.old)) (kind_of (decimal_of text.now 15 22))
        (float_cells (decimal_of text.now 15 22)) 3 out.old out.new result }
{
    probe::probe_decimal_f64(text, out)
}

// A float cut to an i64.
#[unsafe(no_mangle)]
pub extern "C" fn probe_truncate(x: f64) -> i64
    ensures { result ≡ Ieee.to_signed 63 x }
{
    probe::probe_truncate(x)
}

// The size that the text spells: 0 none, 1 one, with its f32 in the first cell and its spelling at
// the start of the bytes, 2 one past the limits. 3 if there is no cell, or the spelling of a size
// does not fit.
#[unsafe(no_mangle)]
pub extern "C" fn probe_size(text: &[u8], spelling: &mut [u8], out: &mut [f32]) -> u32
    ensures { Sized (decimal_of text.now 6 10) spelling.old spelling.new out.old out.new
        result }
{
    probe::probe_size(text, spelling, out)
}

// How many bytes the spelling of the size has that the text spells, at most 18, or 0.
#[unsafe(no_mangle)]
pub extern "C" fn probe_size_width(text: &[u8]) -> usize
    ensures { result ≡ width_of (decimal_of text.now 6 10) }
{
    probe::probe_size_width(text)
}

// Is it a size: an f32, and a spelling that is its own?
#[unsafe(no_mangle)]
pub extern "C" fn probe_is_size(value: f32, negative: bool, digits: u32, scale: u32) -> bool
    ensures { result ≡ is_size (record { value = value; negative = negative; digits = digits; scale = scale }) }
{
    probe::probe_is_size(value, negative, digits, scale)
}
