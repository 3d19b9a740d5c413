// The three queries. A track is handed: every refusal has place 0.
ghost use Rattle.track.specs.Handed.{lists};
ghost use Rattle.std.specs.Prelude.{◌≡◌};
ghost use Rattle.queries.specs.Steps.{refused_as_of, FinishPost};
ghost use Rattle.queries.specs.Promise.{ReferencedStyle, RegionStyle, EffectiveStyle};

use styles::{NamedStyles, Walk};
use track::{Look, Span, Tables};
use tree::Refusal;

// A style: its name, a part of the query's text; what it says, its family being a part of the track's
// strings; and how many ids were reached.
#[derive(Clone, Copy)]
pub struct Styled {
    pub name: Span,
    pub look: Look,
    pub ids: usize,
}

// Without a style there is how many ids were reached.
#[derive(Clone, Copy)]
pub enum Resolved {
    Style(Styled),
    NoStyle(usize),
}

fn refused(number: u32) -> Result<Resolved, Refusal>
    ensures { result ≡ refused_as_of number }
{
    Err(Refusal { number, place: 0 })
}

// An answer from what was walked; where there was no row for an id, every cell is cleared.
fn finish(name: Span, walked: Option<Walk>, ids: &mut [u32]) -> Result<Resolved, Refusal>
    ensures { FinishPost name walked ids.old ids.new result }
{
    let Some(w) = walked else {
        scan::clear(ids);
        return refused(18);
    };
    if !w.found {
        return Ok(Resolved::NoStyle(w.count));
    }
    Ok(Resolved::Style(Styled {
        name,
        look: w.look,
        ids: w.count,
    }))
}

// `resolve_referenced_style` in the Rust, on a handed track.
pub fn resolve_referenced_style(
    value: &[u8],
    t: &Tables<'_>,
    ids: &mut [u32],
) -> Result<Resolved, Refusal>
    ensures { ReferencedStyle value.now (lists t.now) ids.old result ids.new }
{
    scan::clear(ids);
    crate::check::check_query(value, t)?;
    let name = utf8::trim(value);
    let start = name.start;
    let part = Span {
        place: start,
        len: name.end - start,
    };
    let look = styles::blank();
    let whole = Span {
        place: 0,
        len: value.len(),
    };
    let none = Span { place: 0, len: 0 };
    let named = NamedStyles {
        styles: t.styles,
        sizes: t.sizes,
        strings: t.strings,
        many: scan::get(t.head, 1),
    };
    let walked = styles::resolve_over(value, &named, value, 0, whole, look, none, ids);
    finish(part, walked, ids)
}

// `region_style` in the Rust.
pub fn region_style(id: &[u8], t: &Tables<'_>, ids: &mut [u32]) -> Result<Resolved, Refusal>
    ensures { RegionStyle id.now (lists t.now) ids.old result ids.new }
{
    scan::clear(ids);
    crate::check::check_query(id, t)?;
    let part = match crate::region::region_part(t, scan::get(t.head, 2), id) {
        Err(number) => return refused(number),
        Ok(x) => x,
    };
    let name = Span {
        place: 0,
        len: id.len(),
    };
    let none = Span { place: 0, len: 0 };
    let named = NamedStyles {
        styles: t.styles,
        sizes: t.sizes,
        strings: t.strings,
        many: scan::get(t.head, 1),
    };
    let walked = styles::resolve_over(id, &named, t.strings, 1, part.chain, part.look, none, ids);
    finish(name, walked, ids)
}

// `effective_style_for_cue_index` in the Rust.
pub fn effective_style_for_cue_index(
    t: &Tables<'_>,
    cue_index: usize,
    ids: &mut [u32],
) -> Result<Resolved, Refusal>
    ensures { EffectiveStyle (lists t.now) cue_index ids.old result ids.new }
{
    scan::clear(ids);
    track::check_track(t)?;
    if scan::get(t.head, 3) <= cue_index {
        return Ok(Resolved::NoStyle(0));
    }
    let cue = records::cue_at(t.cues, t.times, cue_index);
    let m = scan::get(t.head, 2);
    let part = match crate::region::cue_part(t, m, cue.has_region, cue.region) {
        Err(number) => return refused(number),
        Ok(x) => x,
    };
    let none = Span { place: 0, len: 0 };
    let named = NamedStyles {
        styles: t.styles,
        sizes: t.sizes,
        strings: t.strings,
        many: scan::get(t.head, 1),
    };
    let walked = styles::resolve_over(
        b"", &named, t.strings, 1, part.chain, part.look, cue.style, ids,
    );
    finish(none, walked, ids)
}
