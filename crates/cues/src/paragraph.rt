// What a p's attributes say: what they put around its rows, and its values.
ghost use Rattle.std.specs.Prelude.{◌≡◌, true, ◌*◌, ◌≤◌, ◌<◌, ◌^◌, length};
ghost use Rattle.records.specs.Posts.{SmallSpan};
ghost use Rattle.times.specs.declared.offset.TimingCtx.{TimingCtx};
ghost use Rattle.meaning.specs.Kinds.{with_places};
ghost use Rattle.meaning.specs.Space.{is_preserve};
ghost use Rattle.meaning.specs.Cues.{styled};
ghost use Rattle.styling.specs.Posts.{Of, space_in};
ghost use Rattle.content.specs.Steps.{Wide};
ghost use Rattle.inline.specs.Wraps.{wrappers_from};
ghost use Rattle.cues.specs.Steps.{TellsBare, Paragraphed, StyledGiven, dressing, PartIs};

use inline::Wrappers;
use styling::WsMode;
use track::{FONT, SEGMENT_CELLS, Span};
use tree::Refusal;
use xml::Attributes;

// Are the rows from `first` up to `end` a font without family and size, and what it wraps?
fn is_bare(segments: &[u32], first: usize, end: usize) -> bool
    requires { (first ≤ end) × (end * 6 ≤ length segments.now) }
    ensures tells_bare { TellsBare segments.now first end result }
    ensures first_lt_end { result ≡ true → first < end }
{
    let at = first * SEGMENT_CELLS;
    first != end
        && scan::get(segments, at + 1) == end - first
        && segments[at] == FONT
        && segments[at + 4] == 0
}

// A p's wrappers around its rows; without any, a font without family and size that is all of them goes.
pub fn put_paragraph(segments: &mut [u32], first: usize, end: usize, w: Wrappers) -> Option<usize>
    requires { (first ≤ end) × (end ≤ 16384) × (98304 ≤ length segments.old) × SmallSpan w.font.family }
    ensures { Paragraphed first end (wrappers_from w) segments.old segments.new result }
{
    let m = inline::put_wrappers(segments, first, end, false, 0, w)?;
    if m == end && is_bare(segments, first, end) {
        records::drop_segment(segments, first, end);
        return Some(end - 1);
    }
    Some(m)
}

// The wrappers of a p around its rows.
fn wrap_paragraph(
    attrs: &Attributes<'_>,
    segments: &mut [u32],
    place: usize,
    first: usize,
    end: usize,
) -> Result<usize, Refusal>
    requires { (first ≤ end) × (end ≤ 16384) × Wide segments.old × (length attrs.now.strings.now < 2 ^ 32) }
    ensures { Of attrs.now (λ l.
        StyledGiven (dressing place first l) first end segments.old segments.new result) }
{
    let w = styling::wrappers_of(attrs)?;
    put_paragraph(segments, first, end, content::around(w)).ok_or(Refusal { number: 13, place })
}

// What a p's attributes put around the rows of its content, if it has one that segments show.
pub fn style_paragraph(
    attrs: &Attributes<'_>,
    segments: &mut [u32],
    place: usize,
    first: usize,
    end: usize,
) -> Result<usize, Refusal>
    requires { (first ≤ end) × (end ≤ 16384) × Wide segments.old × (length attrs.now.strings.now < 2 ^ 32) }
    ensures { Of attrs.now (λ l. (ctx : TimingCtx)
        → StyledGiven (styled with_places ctx place first l) first end segments.old segments.new result) }
{
    if styling::p_has_modelled_inline_style(attrs) {
        return wrap_paragraph(attrs, segments, place, first, end);
    }
    Ok(end)
}

pub fn is_preserve(ws: WsMode) -> bool
    ensures { result ≡ is_preserve (space_in ws) }
{
    matches!(ws, WsMode::Preserve)
}

// The value of the first attribute of this name.
pub fn value_of(attrs: &Attributes<'_>, name: &[u8]) -> Option<Span>
    ensures { Of attrs.now (λ l.
        PartIs attrs.now.strings.now name.now l result) }
{
    let h = styling::find(attrs, name)?;
    Some(Span {
        place: h.place,
        len: h.len,
    })
}
