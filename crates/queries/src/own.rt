// What a region says of itself by its kept attributes (the Rust's `apply_tts_attrs` on them).
ghost use Rattle.std.specs.Prelude.{◌≡◌, ◌≤◌, length, take};
ghost use Rattle.scan.specs.Bytes.{run_length_of};
ghost use Rattle.styles.specs.Own.{size_byte, align_in};
ghost use Rattle.queries.specs.Steps.{value_at, bytes_in, value_in_of, says, ColorPost, SizePost, own_look, OwnPost};

use crate::kept::Kept;
use colors::{ColorError, Rgba};
use decimals::{DecimalError, Size};
use scan::Class;
use track::{Align, EXTRA_CELLS, Look, Span};

// Numbers of names in REGION_ATTR_ORDER.
const BACKGROUND_COLOR: usize = 1;

const COLOR: usize = 9;

const FONT_FAMILY: usize = 15;

const FONT_SIZE: usize = 19;

const FONT_STYLE: usize = 20;

const FONT_WEIGHT: usize = 22;

const TEXT_ALIGN: usize = 39;

// An attribute's value; without one its part is empty. A flag and not an `Option`: no value reads as one of no bytes.
#[derive(Clone, Copy)]
pub struct Value {
    pub has: bool,
    pub span: Span,
}

// A colour; without one it is zero. Cut is number 15.
#[derive(Clone, Copy)]
pub struct Paint {
    pub has: bool,
    pub color: Rgba,
}

// A size; without one it is zero. Beyond is number 14.
#[derive(Clone, Copy)]
pub struct Measure {
    pub has: bool,
    pub size: Size,
}

// The value of the first row that has this number.
pub fn value_of(kept: &Kept<'_>, number: usize) -> Value
    ensures { result ≡ value_at kept.now.extras.now number kept.now.many kept.now.first }
{
    for i in kept.first..kept.first + kept.many {
        if scan::get(kept.extras, i * EXTRA_CELLS) == number {
            return Value {
                has: true,
                span: track::span_at(kept.extras, i * EXTRA_CELLS + 1),
            };
        }
    }
    Value {
        has: false,
        span: Span { place: 0, len: 0 },
    }
}

// Its bytes; without one there are none.
fn bytes_of<'a>(kept: &Kept<'a>, number: usize) -> &'a [u8]
    ensures { result.now ≡ bytes_in kept.now.extras.now kept.now.strings.now number kept.now.many kept.now.first }
{
    let s = value_of(kept, number).span;
    &kept.strings[s.place..s.place + s.len]
}

fn color_in(value: &[u8]) -> Option<Paint>
    ensures { ColorPost value.now result }
{
    match colors::parse_ttml_color_rgba(value) {
        Ok(color) => Some(Paint { has: true, color }),
        Err(ColorError::Invalid) => {
            let color = Rgba {
                r: 0,
                g: 0,
                b: 0,
                a: 0,
            };
            Some(Paint { has: false, color })
        }
        Err(ColorError::Cut) => None,
    }
}

fn is_size_byte(b: u8) -> bool
    ensures { result ≡ size_byte b }
{
    scan::is_of(Class::Digit, b) || b == b'.'
}

// Where the digits and points at the start end.
fn leading_end(value: &[u8]) -> usize
    ensures { (result ≤ length value.now) × (result ≡ run_length_of size_byte value.now) }
{
    for i in 0..value.len() {
        if !is_size_byte(value[i]) {
            return i;
        }
    }
    value.len()
}

fn size_in(value: &[u8]) -> Option<Measure>
    ensures { SizePost value.now result }
{
    let end = leading_end(value);
    match decimals::read_decimal(&value[..end], 6, 10) {
        Ok(d) => Some(Measure {
            has: true,
            size: decimals::size_of(d),
        }),
        Err(DecimalError::Invalid) => {
            let size = Size {
                value: 0.0,
                negative: false,
                digits: 0,
                scale: 0,
            };
            Some(Measure { has: false, size })
        }
        Err(DecimalError::Beyond) => None,
    }
}

fn align_of(kept: &Kept<'_>) -> Align
    ensures { result ≡ align_in (value_in_of kept.now.extras.now kept.now.strings.now 39 kept.now.many kept.now.first) }
{
    track::parse_text_align(bytes_of(kept, TEXT_ALIGN))
}

// Is the value with this number the word, letters in any case?
fn is_said(kept: &Kept<'_>, number: usize, word: &[u8]) -> bool
    ensures { result ≡ says word.now (value_in_of kept.now.extras.now kept.now.strings.now number kept.now.many kept.now.first) }
{
    let v = value_of(kept, number);
    if !v.has {
        return false;
    }
    let s = v.span;
    scan::eq_ignore_ascii_case(&kept.strings[s.place..s.place + s.len], word)
}

fn color_of(kept: &Kept<'_>, number: usize) -> Option<Paint>
    ensures { ColorPost (bytes_in kept.now.extras.now kept.now.strings.now number kept.now.many kept.now.first) result }
{
    color_in(bytes_of(kept, number))
}

fn size_of(kept: &Kept<'_>) -> Option<Measure>
    ensures { SizePost (bytes_in kept.now.extras.now kept.now.strings.now 19 kept.now.many kept.now.first) result }
{
    size_in(bytes_of(kept, FONT_SIZE))
}

// What is left to be said beside colours and size.
fn own_look(kept: &Kept<'_>, color: Paint, back: Paint, size: Measure) -> Look
    ensures { result ≡ own_look kept.now.extras.now kept.now.strings.now kept.now.first kept.now.many color back size }
{
    let family = value_of(kept, FONT_FAMILY);
    let align = align_of(kept);
    let bold = is_said(kept, FONT_WEIGHT, b"bold");
    let italic = is_said(kept, FONT_STYLE, b"italic");
    let oblique = is_said(kept, FONT_STYLE, b"oblique");
    Look {
        has_color: color.has,
        color: color.color,
        has_back: back.has,
        back: back.color,
        has_family: family.has,
        family: family.span,
        has_size: size.has,
        size: size.size,
        bold,
        italic: italic || oblique,
        underline: false,
        strike: false,
        align,
    }
}

// Colour, background and size in this order: the first that is refused is the answer.
pub fn own_values(kept: &Kept<'_>) -> Result<Look, u32>
    ensures { OwnPost kept.now.extras.now kept.now.strings.now kept.now.first kept.now.many result }
{
    let Some(color) = color_of(kept, COLOR) else {
        return Err(15);
    };
    let Some(back) = color_of(kept, BACKGROUND_COLOR) else {
        return Err(15);
    };
    let Some(size) = size_of(kept) else {
        return Err(14);
    };
    Ok(own_look(kept, color, back, size))
}
