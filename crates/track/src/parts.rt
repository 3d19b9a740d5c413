// Parts of a row that several tables have: strings and sizes.
ghost use Rattle.std.specs.Prelude.{◌≡◌, ◌+◌, ◌≤◌, length, get_or};
ghost use Rattle.track.specs.Tables.{optional, size_at};

use crate::strings::Span;
use decimals::Size;

pub fn span_at(cells: &[u32], at: usize) -> Span
    requires { at + 2 ≤ length cells.now }
    ensures { result ≡ record { place = get_or cells.now at 0; len = get_or cells.now (at + 1) 0 } }
{
    Span {
        place: scan::get(cells, at),
        len: scan::get(cells, at + 1),
    }
}

// A string that may be absent; then its place and length are 0.
pub fn optional_at(cells: &[u32], at: usize) -> Span
    requires { at + 3 ≤ length cells.now }
    ensures { result ≡ optional (get_or cells.now at 0) (get_or cells.now (at + 1) 0) (get_or cells.now (at + 2) 0) }
{
    if cells[at] == 1 {
        return span_at(cells, at + 1);
    }
    Span { place: 0, len: 0 }
}

// A size from its cells; without a sign it is none.
pub fn size_at(sign: u32, digits: u32, scale: u32, value: f32) -> Size
    ensures { result ≡ size_at sign digits scale value }
{
    if sign == 0 {
        return Size {
            value: 0.0,
            negative: false,
            digits: 0,
            scale: 0,
        };
    }
    Size {
        value,
        negative: sign == 2,
        digits,
        scale,
    }
}
