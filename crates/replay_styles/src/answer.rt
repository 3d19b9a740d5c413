// An answer held to the bytes that are told. A refusal is its number and 0. A style, or none, is 0; 1, or 0 for none; of a style
//
//     its name: 2 bytes of its length, and itself
//     colour, and background: 1, red, green, blue, alpha; or 0
//     family: 1 and as the name; or 0
//     size: 1, 2 for a minus and else 1, 4 bytes of its digits, its scale, 4 bytes of the f32; or 0
//     bold, italic, underline, strike, alignment
//
// then 2 bytes of how many ids there are, and the ids, each as the name. Last comes 1: all cells behind the ids must be zero. An
// answer with a part that is absent and not zero, or a place that is not 0, is never told.
use colors::Rgba;
use decimals::Size;
use queries::{Resolved, Styled};
use track::{Align, Look, Span};
use tree::Refusal;

// What is told after a byte, if it is told first. Each function that follows gives what is told after all of its bytes.
fn after(told: &[u8], b: u8) -> Option<&[u8]> {
    told.strip_prefix(&[b])
}

fn after_two(told: &[u8], n: usize) -> Option<&[u8]> {
    told.strip_prefix(&[(n / 256 % 256) as u8, (n % 256) as u8])
}

fn after_four(told: &[u8], n: u32) -> Option<&[u8]> {
    told.strip_prefix(&n.to_be_bytes())
}

// A string of a table.
fn after_part<'a>(told: &'a [u8], bytes: &[u8], place: usize, len: usize) -> Option<&'a [u8]> {
    let part = bytes.get(place..)?.get(..len)?;
    after_two(told, len)?.strip_prefix(part)
}

// A part that is absent.
fn after_none(told: &[u8], is_zero: bool) -> Option<&[u8]> {
    if is_zero { after(told, 0) } else { None }
}

fn is_no_color(c: Rgba) -> bool {
    c.r == 0 && c.g == 0 && c.b == 0 && c.a == 0
}

fn after_color(told: &[u8], has: bool, c: Rgba) -> Option<&[u8]> {
    if !has {
        return after_none(told, is_no_color(c));
    }
    told.strip_prefix(&[1, c.r, c.g, c.b, c.a])
}

fn after_family<'a>(told: &'a [u8], has: bool, family: Span, strings: &[u8]) -> Option<&'a [u8]> {
    if !has {
        return after_none(told, family.place == 0 && family.len == 0);
    }
    after_part(after(told, 1)?, strings, family.place, family.len)
}

fn after_float(told: &[u8], value: f32) -> Option<&[u8]> {
    if value.is_nan() {
        return None;
    }
    after_four(told, value.to_bits())
}

fn sign(negative: bool) -> u8 {
    if negative { 2 } else { 1 }
}

fn is_no_size(size: Size) -> bool {
    size.digits == 0 && size.scale == 0 && !size.negative
}

fn after_size(told: &[u8], has: bool, size: Size) -> Option<&[u8]> {
    if !has {
        return after_none(told, is_no_size(size));
    }
    let digits = told.strip_prefix(&[1, sign(size.negative)])?;
    let scale = after_four(digits, size.digits)?;
    let float = after(scale, (size.scale % 256) as u8)?;
    after_float(float, size.value)
}

fn number_of(x: Align) -> u8 {
    match x {
        Align::Start => 0,
        Align::Center => 1,
        Align::End => 2,
        Align::Left => 3,
        Align::Right => 4,
    }
}

fn after_flags(told: &[u8], look: Look) -> Option<&[u8]> {
    told.strip_prefix(&[
        u8::from(look.bold),
        u8::from(look.italic),
        u8::from(look.underline),
        u8::from(look.strike),
        number_of(look.align),
    ])
}

fn after_look<'a>(told: &'a [u8], look: Look, strings: &[u8]) -> Option<&'a [u8]> {
    let back = after_color(told, look.has_color, look.color)?;
    let family = after_color(back, look.has_back, look.back)?;
    let size = after_family(family, look.has_family, look.family, strings)?;
    let flags = after_size(size, look.has_size, look.size)?;
    after_flags(flags, look)
}

fn after_style<'a>(told: &'a [u8], style: Styled, text: &[u8], strings: &[u8]) -> Option<&'a [u8]> {
    let name = told.strip_prefix(&[0, 1])?;
    let look = after_part(name, text, style.name.place, style.name.len)?;
    after_look(look, style.look, strings)
}

fn is_clear(ids: &[u32]) -> bool {
    ids.iter().all(|&x| x == 0)
}

// The id of a row: whether it is of the text or of the strings, its place and its length.
fn after_id<'a>(told: &'a [u8], row: &[u32], text: &[u8], strings: &[u8]) -> Option<&'a [u8]> {
    match row {
        [0, place, len, 0] => after_part(told, text, *place as usize, *len as usize),
        [1, place, len, 0] => after_part(told, strings, *place as usize, *len as usize),
        _ => None,
    }
}

// Do so many ids end what is told? None where they do not.
fn ids_end(told: &[u8], count: usize, ids: &[u32], text: &[u8], strings: &[u8]) -> Option<()> {
    let mut rest = after_two(told, count)?;
    let mut cells = ids;
    for _ in 0..count {
        let (row, behind) = cells.split_at_checked(4)?;
        rest = after_id(rest, row, text, strings)?;
        cells = behind;
    }
    (matches!(rest, [1]) && is_clear(cells)).then_some(())
}

fn is_refusal(told: &[u8], refusal: Refusal, ids: &[u32]) -> bool {
    told == [(refusal.number % 256) as u8, 0].as_slice() && refusal.place == 0 && is_clear(ids)
}

// Is it what is told?
pub fn is_told(
    answer: Result<Resolved, Refusal>,
    text: &[u8],
    strings: &[u8],
    ids: &[u32],
    told: &[u8],
) -> bool {
    match answer {
        Err(r) => is_refusal(told, r, ids),
        Ok(Resolved::NoStyle(n)) => after_two(told, 0)
            .and_then(|rest| ids_end(rest, n, ids, text, strings))
            .is_some(),
        Ok(Resolved::Style(s)) => after_style(told, s, text, strings)
            .and_then(|rest| ids_end(rest, s.ids, ids, text, strings))
            .is_some(),
    }
}
