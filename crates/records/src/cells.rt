// Parts of a row: strings, rows of another table, colours and sizes.
ghost use Rattle.std.specs.Prelude.{◌≡◌, ◌+◌, ◌≤◌, length, get_or, true};
ghost use Rattle.std.proofs.lemmas.List.Edits.{sets};
ghost use Rattle.track.specs.Meaning.{is_color};
ghost use Rattle.track.specs.Tables.{color_at};
ghost use Rattle.track.specs.Layout.{flag, span_cells, rows_cells, optional_cells, color_cells, size_cells};
ghost use Rattle.records.specs.Posts.{SmallSpan, SmallRows};

use colors::Rgba;
use decimals::Size;
use track::{Rows, Span};

pub fn flag_cell(b: bool) -> u32
    ensures { result ≡ flag b }
{
    if b { 1 } else { 0 }
}

pub fn put_span(cells: &mut [u32], at: usize, x: Span)
    requires { (at + 2 ≤ length cells.old) × SmallSpan x }
    ensures { cells.new ≡ sets cells.old at (span_cells x) }
{
    cells[at] = x.place as u32;
    cells[at + 1] = x.len as u32;
}

pub fn put_rows(cells: &mut [u32], at: usize, x: Rows)
    requires { (at + 2 ≤ length cells.old) × SmallRows x }
    ensures { cells.new ≡ sets cells.old at (rows_cells x) }
{
    cells[at] = x.first as u32;
    cells[at + 1] = x.count as u32;
}

// A string that may be absent: a flag before its place and length.
pub fn put_optional(cells: &mut [u32], at: usize, has: bool, x: Span)
    requires { (at + 3 ≤ length cells.old) × SmallSpan x }
    ensures { cells.new ≡ sets cells.old at (optional_cells has x) }
{
    if has {
        cells[at] = 1;
        put_span(cells, at + 1, x);
    } else {
        cells[at] = 0;
        cells[at + 1] = 0;
        cells[at + 2] = 0;
    }
}

pub fn put_color(cells: &mut [u32], at: usize, has: bool, c: Rgba)
    requires { at + 5 ≤ length cells.old }
    ensures { cells.new ≡ sets cells.old at (color_cells has c) }
{
    if has {
        cells[at] = 1;
        cells[at + 1] = c.r as u32;
        cells[at + 2] = c.g as u32;
        cells[at + 3] = c.b as u32;
        cells[at + 4] = c.a as u32;
    } else {
        cells[at] = 0;
        cells[at + 1] = 0;
        cells[at + 2] = 0;
        cells[at + 3] = 0;
        cells[at + 4] = 0;
    }
}

// The spelling of a size.
pub fn put_size(cells: &mut [u32], at: usize, has: bool, s: Size)
    requires { at + 3 ≤ length cells.old }
    ensures { cells.new ≡ sets cells.old at (size_cells has s) }
{
    if has {
        cells[at] = if s.negative { 2 } else { 1 };
        cells[at + 1] = s.digits;
        cells[at + 2] = s.scale;
    } else {
        cells[at] = 0;
        cells[at + 1] = 0;
        cells[at + 2] = 0;
    }
}

pub fn rows_at(cells: &[u32], at: usize) -> Rows
    requires { at + 2 ≤ length cells.now }
    ensures { result ≡ record { first = get_or cells.now at 0; count = get_or cells.now (at + 1) 0 } }
{
    Rows {
        first: scan::get(cells, at),
        count: scan::get(cells, at + 1),
    }
}

pub fn color_at(cells: &[u32], at: usize) -> Rgba
    requires { (at + 5 ≤ length cells.now) × (is_color cells.now at ≡ true) }
    ensures { result ≡ color_at cells.now at }
{
    if cells[at] == 1 {
        return Rgba {
            r: cells[at + 1] as u8,
            g: cells[at + 2] as u8,
            b: cells[at + 3] as u8,
            a: cells[at + 4] as u8,
        };
    }
    Rgba {
        r: 0,
        g: 0,
        b: 0,
        a: 0,
    }
}
