// Named styles and regions.
ghost use Rattle.std.specs.Prelude.{◌≡◌, true, [], ◌∷◌, ◌+◌, ◌*◌, ◌≤◌, length};
ghost use Rattle.std.proofs.lemmas.List.Edits.{sets};
ghost use Rattle.track.specs.Meaning.{is_color};
ghost use Rattle.track.specs.Tables.{look_at, align_at, style_at, region_at};
ghost use Rattle.track.specs.Layout.{flag_cells, look_cells, align_cell, style_cells, size_value, region_cells};
ghost use Rattle.records.specs.Posts.{SmallSpan, SmallRows, AddPost, ValuePost};

use crate::rows::Row;
use track::{Align, Look, REGION_CELLS, REGIONS, Region, STYLE_CELLS, STYLES, Style};

fn align_at(c: u32) -> Align
    ensures { result ≡ align_at c }
{
    match c {
        1 => Align::Center,
        2 => Align::End,
        3 => Align::Left,
        4 => Align::Right,
        _ => Align::Start,
    }
}

fn align_cell(a: Align) -> u32
    ensures { result ≡ align_cell a }
{
    match a {
        Align::Start => 0,
        Align::Center => 1,
        Align::End => 2,
        Align::Left => 3,
        Align::Right => 4,
    }
}

// What the style says whose row begins at a cell.
fn look_at(styles: &[u32], at: usize, value: f32) -> Look
    requires { (at + 27 ≤ length styles.now) × (is_color styles.now (at + 4) ≡ true) × (is_color styles.now (at + 9) ≡ true) }
    ensures { result ≡ look_at styles.now value at }
{
    Look {
        has_color: styles[at + 4] == 1,
        color: crate::cells::color_at(styles, at + 4),
        has_back: styles[at + 9] == 1,
        back: crate::cells::color_at(styles, at + 9),
        has_family: styles[at + 14] == 1,
        family: track::optional_at(styles, at + 14),
        has_size: styles[at + 17] != 0,
        size: track::size_at(styles[at + 17], styles[at + 18], styles[at + 19], value),
        bold: styles[at + 20] == 1,
        italic: styles[at + 21] == 1,
        underline: styles[at + 22] == 1,
        strike: styles[at + 23] == 1,
        align: align_at(styles[at + 24]),
    }
}

pub fn style_at(styles: &[u32], sizes: &[f32], i: usize) -> Style
    requires { (i * 27 + 27 ≤ length styles.now) × (i + 1 ≤ length sizes.now) × (is_color styles.now (i * 27 + 4) ≡ true)
        × (is_color styles.now (i * 27 + 9) ≡ true) }
    ensures { result ≡ style_at styles.now sizes.now i }
{
    let at = i * STYLE_CELLS;
    Style {
        name: track::span_at(styles, at),
        chain: track::span_at(styles, at + 2),
        look: look_at(styles, at, sizes[i]),
        extras: crate::cells::rows_at(styles, at + 25),
    }
}

// Its four flags and its alignment.
fn put_flags(styles: &mut [u32], at: usize, x: Look)
    requires { at + 5 ≤ length styles.old }
    ensures { styles.new ≡ sets styles.old at (flag_cells x) }
{
    styles[at] = crate::cells::flag_cell(x.bold);
    styles[at + 1] = crate::cells::flag_cell(x.italic);
    styles[at + 2] = crate::cells::flag_cell(x.underline);
    styles[at + 3] = crate::cells::flag_cell(x.strike);
    styles[at + 4] = align_cell(x.align);
}

fn put_look(styles: &mut [u32], at: usize, x: Look)
    requires { (at + 21 ≤ length styles.old) × SmallSpan x.family }
    ensures { styles.new ≡ sets styles.old at (look_cells x) }
{
    crate::cells::put_color(styles, at, x.has_color, x.color);
    crate::cells::put_color(styles, at + 5, x.has_back, x.back);
    crate::cells::put_optional(styles, at + 10, x.has_family, x.family);
    crate::cells::put_size(styles, at + 13, x.has_size, x.size);
    put_flags(styles, at + 16, x);
}

impl Row for Style {
    ghost WIDTH = { 27 };

    ghost MOST = { 256 };

    ghost cells = { style_cells };

    ghost Small = { λ x. SmallSpan x.name × SmallSpan x.chain × SmallSpan x.look.family × SmallRows x.extras };

    const WIDTH: usize = STYLE_CELLS;

    const MOST: usize = STYLES;

    fn put(self, table: &mut [u32], at: usize) {
        crate::cells::put_span(table, at, self.name);
        crate::cells::put_span(table, at + 2, self.chain);
        put_look(table, at + 4, self.look);
        crate::cells::put_rows(table, at + 25, self.extras);
    }
}

// The f32 of a size; 0 where there is none.
fn size_value(x: Look) -> f32
    ensures { result ≡ size_value x.has_size x.size }
{
    if x.has_size { x.size.value } else { 0.0 }
}

// A style more, where there are n.
pub fn add_style(styles: &mut [u32], sizes: &mut [f32], n: usize, x: Style) -> Option<usize>
    requires { (6912 ≤ length styles.old) × (256 ≤ length sizes.old) × SmallSpan x.name × SmallSpan x.chain
        × SmallSpan x.look.family × SmallRows x.extras }
    ensures add_post { AddPost 256 27 (style_cells x) styles.old styles.new n result }
    ensures value_post { ValuePost n (size_value x.look.has_size x.look.size) sizes.old sizes.new result }
{
    let m = crate::rows::add(styles, n, x)?;
    sizes[n] = size_value(x.look);
    Some(m)
}

pub fn region_at(regions: &[u32], i: usize) -> Region
    requires { i * 4 + 4 ≤ length regions.now }
    ensures { result ≡ region_at regions.now i }
{
    let at = i * REGION_CELLS;
    Region {
        id: track::span_at(regions, at),
        extras: crate::cells::rows_at(regions, at + 2),
    }
}

impl Row for Region {
    ghost WIDTH = { 4 };

    ghost MOST = { 256 };

    ghost cells = { region_cells };

    ghost Small = { λ x. SmallSpan x.id × SmallRows x.extras };

    const WIDTH: usize = REGION_CELLS;

    const MOST: usize = REGIONS;

    fn put(self, table: &mut [u32], at: usize) {
        crate::cells::put_span(table, at, self.id);
        crate::cells::put_rows(table, at + 2, self.extras);
    }
}
