// What a style says: the Rust's `apply_tts_attrs`.
ghost use Rattle.std.specs.Prelude.{◌≡◌};
ghost use Rattle.styling.specs.Posts.{Of, given, option, span_in, look_in_of, look_said, LookFits};
ghost use Rattle.styling.specs.Posts.{look_of, look_answer};

use colors::Rgba;
use track::{Font, Look};
use tree::Refusal;
use xml::Attributes;

// Beside a flag that there is none.
const TRANSPARENT: Rgba = Rgba {
    r: 0,
    g: 0,
    b: 0,
    a: 0,
};

// With these colours and this font.
fn look_of(attrs: &Attributes<'_>, color: Option<Rgba>, back: Option<Rgba>, font: Font) -> Look
    ensures family_value { result.family ≡ font.family }
    ensures of_rows { Of attrs.now (λ l.
        look_in_of attrs.now.strings.now result
        ≡ look_of l (option color) (option back)
        (given font.has_family (span_in attrs.now.strings.now font.family)) (given font.has_size font.size)) }
{
    let family = font.family;
    let size = font.size;
    Look {
        has_color: color.is_some(),
        color: color.unwrap_or(TRANSPARENT),
        has_back: back.is_some(),
        back: back.unwrap_or(TRANSPARENT),
        has_family: font.has_family,
        family,
        has_size: font.has_size,
        size,
        bold: crate::tests::is_bold(attrs),
        italic: crate::tests::is_italic(attrs),
        underline: crate::tests::is_underline(attrs),
        strike: crate::tests::is_strike(attrs),
        align: crate::align::text_align(attrs),
    }
}

// What a style's attributes say; the colours are evaluated before the size.
pub fn apply_tts_attrs(attrs: &Attributes<'_>) -> Result<Look, Refusal>
    ensures look_fits { LookFits attrs.now.strings.now result }
    ensures of_rows { Of attrs.now (λ l.
        look_said attrs.now.strings.now result ≡ look_answer l) }
{
    let color = crate::colours::color_attr(attrs, b"tts:color")?;
    let back = crate::colours::color_attr(attrs, b"tts:backgroundColor")?;
    let size = crate::sizes::style_size(attrs)?;
    let font = crate::fonts::font_of(attrs, size);
    Ok(look_of(attrs, color, back, font))
}
