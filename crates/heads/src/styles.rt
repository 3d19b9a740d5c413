// Named styles.
ghost use Rattle.std.specs.Prelude.{◌≡◌, ◌+◌, ◌*◌, ◌≤◌, ◌<◌, ◌^◌, length};
ghost use Rattle.styling.specs.Posts.{Of, span_in, look_in_of};
ghost use Rattle.heads.specs.Rows.{emptied, style_of_look, Styled, StyleMade, NamedMade};

use track::{Look, STYLES, Span, Style};
use tree::Refusal;
use xml::Attributes;

// What is absent has place 0.
fn or_none(c: Span) -> Span
    ensures { result ≡ emptied c }
{
    if c.len == 0 {
        Span { place: 0, len: 0 }
    } else {
        c
    }
}

// The style of this name and look in the n-th row, its extras from row `at` on; how many they are.
fn add_named(
    attrs: &Attributes<'_>,
    name: Span,
    look: Look,
    styles: &mut [u32],
    sizes: &mut [f32],
    n: usize,
    extras: &mut [u32],
    at: usize,
) -> usize
    requires { (length attrs.now.strings.now < 2 ^ 32) × (at + attrs.now.many < 2 ^ 32)
        × ((at + attrs.now.many) * 3 ≤ length extras.old) × (n < 256) × (6912 ≤ length styles.old) × (256 ≤ length sizes.old)
        × (name.place + name.len ≤ length attrs.now.strings.now) × (look.family.place + look.family.len ≤ length attrs.now.strings.now) }
    ensures upper_bound { result ≤ attrs.now.many }
    ensures of_rows { Of attrs.now (λ l.
        Styled (style_of_look (span_in attrs.now.strings.now name) l (look_in_of attrs.now.strings.now look)) n at
        styles.old styles.new sizes.old sizes.new extras.old extras.new result) }
{
    let rows = extras::collect_style_extras(attrs, extras, at);
    let chain = or_none(styling::chain_of(attrs));
    let count = rows.count;
    let row = Style {
        name,
        chain,
        look,
        extras: rows,
    };
    records::add_style(styles, sizes, n, row);
    count
}

// The style of this name, of the element at a place; or 13 there.
fn named(
    attrs: &Attributes<'_>,
    place: usize,
    name: Span,
    styles: &mut [u32],
    sizes: &mut [f32],
    n: usize,
    extras: &mut [u32],
    at: usize,
) -> Result<Option<usize>, Refusal>
    requires { (length attrs.now.strings.now < 2 ^ 32) × (at + attrs.now.many < 2 ^ 32)
        × ((at + attrs.now.many) * 3 ≤ length extras.old) × (6912 ≤ length styles.old) × (256 ≤ length sizes.old)
        × (name.place + name.len ≤ length attrs.now.strings.now) }
    ensures { Of attrs.now (λ l.
        NamedMade (span_in attrs.now.strings.now name) l place n at
        styles.old styles.new sizes.old sizes.new extras.old extras.new result) }
{
    let look = styling::apply_tts_attrs(attrs)?;
    if STYLES <= n {
        return Err(Refusal { number: 13, place });
    }
    Ok(Some(add_named(attrs, name, look, styles, sizes, n, extras, at)))
}

// The style of the element at a place, as the n-th, its extras from row `at` on. Without an id it is skipped and not evaluated.
pub fn build_style(
    attrs: &Attributes<'_>,
    place: usize,
    styles: &mut [u32],
    sizes: &mut [f32],
    n: usize,
    extras: &mut [u32],
    at: usize,
) -> Result<Option<usize>, Refusal>
    requires { (length attrs.now.strings.now < 2 ^ 32) × (at + attrs.now.many < 2 ^ 32)
        × ((at + attrs.now.many) * 3 ≤ length extras.old) × (6912 ≤ length styles.old) × (256 ≤ length sizes.old) }
    ensures { Of attrs.now (λ l.
        StyleMade l place n at
        styles.old styles.new sizes.old sizes.new extras.old extras.new result) }
{
    let Some(h) = params::id_of(attrs) else {
        return Ok(None);
    };
    let name = Span {
        place: h.place,
        len: h.len,
    };
    named(attrs, place, name, styles, sizes, n, extras, at)
}
