// What a query answers, in 27 cells and a float:
//
//     0       the place of a refusal
//     1       1 for a style
//     2       how many ids were reached
//     3, 4    the style's name: place and length in the query's text
//     5 - 9   its colour: flag, red, green, blue, alpha
//     10 - 14 its background: the same
//     15 - 17 its family: flag, place and length in the track's strings
//     18 - 21 its size: flag, 1 for a minus, digits, scale; the float is its f32
//     22 - 26 bold, italic, underline, strike; alignment (0 start, 1 center, 2 end, 3 left, 4 right)
ghost use Rattle.std.specs.Prelude.{◌≡◌, ◌+◌, ◌≤◌, [], ◌∷◌, length};
ghost use Rattle.std.proofs.lemmas.List.Edits.{sets};
ghost use Rattle.told.specs.Queries.{flag_cell, align_cell, start_cells, color_cells, family_cells, size_cells};
ghost use Rattle.told.specs.Queries.{colors_laid, font_laid, flags_laid, AnswerPut};

use colors::Rgba;
use decimals::Size;
use track::{Align, Look, Span};

fn flag(b: bool) -> u64
    ensures { result ≡ flag_cell b }
{
    if b { 1 } else { 0 }
}

fn align(x: Align) -> u64
    ensures { result ≡ align_cell x }
{
    match x {
        Align::Start => 0,
        Align::Center => 1,
        Align::End => 2,
        Align::Left => 3,
        Align::Right => 4,
    }
}

fn put_start(out: &mut [u64], place: usize, style: u64, ids: usize, name: Span)
    requires { 27 ≤ length out.old }
    ensures { out.new ≡ sets out.old 0 (start_cells place style ids name) }
{
    out[0] = place as u64;
    out[1] = style;
    out[2] = ids as u64;
    out[3] = name.place as u64;
    out[4] = name.len as u64;
}

// A colour in five cells.
fn put_color(out: &mut [u64], at: usize, has: u64, c: Rgba)
    requires { at + 5 ≤ length out.old }
    ensures { out.new ≡ sets out.old at (color_cells has c) }
{
    out[at] = has;
    out[at + 1] = c.r as u64;
    out[at + 2] = c.g as u64;
    out[at + 3] = c.b as u64;
    out[at + 4] = c.a as u64;
}

fn put_family(out: &mut [u64], has: u64, family: Span)
    requires { 27 ≤ length out.old }
    ensures { out.new ≡ sets out.old 15 (family_cells has family) }
{
    out[15] = has;
    out[16] = family.place as u64;
    out[17] = family.len as u64;
}

fn put_size(out: &mut [u64], has: u64, minus: u64, size: Size)
    requires { 27 ≤ length out.old }
    ensures { out.new ≡ sets out.old 18 (size_cells has minus size) }
{
    out[18] = has;
    out[19] = minus;
    out[20] = size.digits as u64;
    out[21] = size.scale as u64;
}

fn put_flags(out: &mut [u64], bold: u64, italic: u64, underline: u64, strike: u64, side: u64)
    requires { 27 ≤ length out.old }
    ensures { out.new ≡ sets out.old 22 (bold ∷ italic ∷ underline ∷ strike ∷ side ∷ []) }
{
    out[22] = bold;
    out[23] = italic;
    out[24] = underline;
    out[25] = strike;
    out[26] = side;
}

fn put_colors(out: &mut [u64], look: Look)
    requires { 27 ≤ length out.old }
    ensures { out.new ≡ colors_laid out.old look }
{
    let color = look.color;
    let back = look.back;
    put_color(out, 5, flag(look.has_color), color);
    put_color(out, 10, flag(look.has_back), back);
}

fn put_font(out: &mut [u64], look: Look)
    requires { 27 ≤ length out.old }
    ensures { out.new ≡ font_laid out.old look }
{
    let family = look.family;
    let size = look.size;
    put_family(out, flag(look.has_family), family);
    put_size(out, flag(look.has_size), flag(size.negative), size);
}

fn put_rest(out: &mut [u64], look: Look)
    requires { 27 ≤ length out.old }
    ensures { out.new ≡ flags_laid out.old look }
{
    let bold = flag(look.bold);
    let italic = flag(look.italic);
    let underline = flag(look.underline);
    let strike = flag(look.strike);
    let side = look.align;
    put_flags(out, bold, italic, underline, strike, align(side));
}

// The cells and the float of an answer.
pub fn put_answer(
    out: &mut [u64],
    size: &mut [f32],
    place: usize,
    style: u64,
    ids: usize,
    name: Span,
    look: Look,
)
    requires { (27 ≤ length out.old) × (1 ≤ length size.old) }
    ensures { AnswerPut place style ids name look out.old out.new size.old size.new }
{
    put_start(out, place, style, ids, name);
    put_colors(out, look);
    put_font(out, look);
    put_rest(out, look);
    let measure = look.size;
    size[0] = measure.value;
}
