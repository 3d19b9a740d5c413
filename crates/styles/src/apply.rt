// The resolution of a style value: each id once, its parents before itself.
ghost use Rattle.std.specs.Prelude.{◌≡◌, [], ◌∷◌};
ghost use Rattle.scan.specs.Part.{string_at};
ghost use Rattle.utf8.specs.White.{words};
ghost use Rattle.track.specs.Meaning.{bytes_at};
ghost use Rattle.track.specs.Tables.{span};
ghost use Rattle.styles.specs.Ids.{Held};
ghost use Rattle.styles.specs.Places.{row, Walks};
ghost use Rattle.styles.specs.Steps.{Stands, ChainOf, OwnStyle, Visits, ApplyPost, LaysOver, PairPost, AnswerPost};

use crate::named::NamedStyles;
use track::{Look, STYLE_CELLS, Span};

// What is known on the way: how many ids were visited, whether a style was met, and the styles met, each
// over those before it.
#[derive(Clone, Copy)]
pub struct Walk {
    pub count: usize,
    pub found: bool,
    pub look: Look,
}

// The chain of the first style of this name that has one; an empty part where none has.
fn chain_of(named: &NamedStyles<'_>, name: &[u8]) -> Span
    ensures { ChainOf named.now.styles.now named.now.strings.now named.now.many name.now result }
{
    match records::find_chain(named.styles, named.strings, named.many, name) {
        Some(i) => Span {
            place: scan::get(named.styles, i * STYLE_CELLS + 2),
            len: scan::get(named.styles, i * STYLE_CELLS + 3),
        },
        None => Span { place: 0, len: 0 },
    }
}

// The style of this name itself, over what was met before.
fn own_style(named: &NamedStyles<'_>, name: &[u8], w: Walk) -> Walk
    ensures { OwnStyle named.now.styles.now named.now.sizes.now named.now.strings.now named.now.many name.now w result }
{
    match records::find_style(named.styles, named.strings, named.many, name) {
        Some(i) => {
            let style = records::style_at(named.styles, named.sizes, i);
            Walk {
                count: w.count,
                found: true,
                look: crate::values::overlay_style(w.look, style.look),
            }
        }
        None => w,
    }
}

// The Rust's `apply_style_ref`: the id that stands in `own` (the query's text if the source is 0, else the
// track's strings), its parents first.
fn apply_style_ref(
    text: &[u8],
    named: &NamedStyles<'_>,
    own: &[u8],
    source: u32,
    at: usize,
    len: usize,
    ids: &mut [u32],
    heads: &mut [u32],
    w: Walk,
) -> Option<Walk>
    requires { Stands text.now named.now.strings.now own.now source at len
        × Held text.now named.now.strings.now ids.old heads.old w.count }
    ensures { ApplyPost text.now named.now.styles.now named.now.sizes.now named.now.strings.now named.now.many
        (string_at own.now at len ∷ []) ids.old ids.new heads.new w
        (Visits text.now named.now.styles.now named.now.sizes.now named.now.strings.now named.now.many
        (row source (span at len))) result }
{
    let end = at + len;
    let count = w.count;
    let h = crate::ids::hash(&own[at..end]);
    if crate::ids::is_visited(text, named.strings, ids, heads, count, h, &own[at..end]) {
        return Some(w);
    }
    if 65536 <= count {
        return None;
    }
    if ids.len() - count * 4 < 4 {
        return None;
    }
    crate::ids::add_id(ids, heads, count, h, source, at, len, &own[at..end]);
    let mut s = Walk {
        count: count + 1,
        found: w.found,
        look: w.look,
    };
    let chain = chain_of(named, &own[at..end]);
    let from = chain.place;
    let to = from + chain.len;
    let mut p = 0;
    while let Some(x) = utf8::next_word(&named.strings[from..to], p) {
        let start = x.start;
        s = apply_style_ref(
            text,
            named,
            named.strings,
            1,
            from + start,
            x.end - start,
            ids,
            heads,
            s,
        )?;
        p = x.end;
    }
    Some(own_style(named, &own[at..end], s))
}

// The ids of a value, one after the other: `len` bytes of `own` (as above) from a place on. What was
// visited before stays visited.
fn apply_refs(
    text: &[u8],
    named: &NamedStyles<'_>,
    own: &[u8],
    source: u32,
    from: usize,
    len: usize,
    ids: &mut [u32],
    heads: &mut [u32],
    w: Walk,
) -> Option<Walk>
    requires { Stands text.now named.now.strings.now own.now source from len
        × Held text.now named.now.strings.now ids.old heads.old w.count }
    ensures { ApplyPost text.now named.now.styles.now named.now.sizes.now named.now.strings.now named.now.many
        (words (string_at own.now from len)) ids.old ids.new heads.new w
        (Walks text.now named.now.styles.now named.now.sizes.now named.now.strings.now named.now.many
        (row source (span from len)) 0) result }
{
    let to = from + len;
    let mut s = w;
    let mut p = 0;
    while let Some(x) = utf8::next_word(&own[from..to], p) {
        let start = x.start;
        s = apply_style_ref(
            text,
            named,
            own,
            source,
            from + start,
            x.end - start,
            ids,
            heads,
            s,
        )?;
        p = x.end;
    }
    Some(s)
}

// Two values, the second from where the first ended: the style of the first, and the ids of both. The
// first stands in `own` (as above), the second in the track's strings.
fn resolve_pair(
    text: &[u8],
    named: &NamedStyles<'_>,
    own: &[u8],
    source: u32,
    first: Span,
    second: Span,
    ids: &mut [u32],
) -> Option<Walk>
    requires { Stands text.now named.now.strings.now own.now source first.place first.len
        × Stands text.now named.now.strings.now named.now.strings.now 1 second.place second.len }
    ensures { PairPost text.now named.now.styles.now named.now.sizes.now named.now.strings.now named.now.many
        (bytes_at own.now first) (bytes_at named.now.strings.now second) ids.old ids.new
        (row source first) (row 1 second) result }
{
    let mut heads = [0u32; 4096];
    let w = Walk {
        count: 0,
        found: false,
        look: crate::values::blank(),
    };
    let a = apply_refs(
        text,
        named,
        own,
        source,
        first.place,
        first.len,
        ids,
        &mut heads,
        w,
    )?;
    let b = apply_refs(
        text,
        named,
        named.strings,
        1,
        second.place,
        second.len,
        ids,
        &mut heads,
        a,
    )?;
    crate::ids::clear_links(ids, b.count);
    Some(Walk {
        count: b.count,
        found: a.found,
        look: a.look,
    })
}

// A look over an answer, where there is one.
fn lay_over(below: Walk, has: bool, above: Look) -> Walk
    ensures { LaysOver below has above result }
{
    if !has {
        return below;
    }
    let look = if below.found {
        crate::values::overlay_style(below.look, above)
    } else {
        above
    };
    Walk {
        count: below.count,
        found: true,
        look,
    }
}

// A value (as above), over its style a look, and over that the style of a second value. Each value is resolved
// with ids of its own; the ids of both are given, each once.
pub fn resolve_over(
    text: &[u8],
    named: &NamedStyles<'_>,
    own: &[u8],
    source: u32,
    first: Span,
    look: Look,
    second: Span,
    ids: &mut [u32],
) -> Option<Walk>
    requires { Stands text.now named.now.strings.now own.now source first.place first.len
        × Stands text.now named.now.strings.now named.now.strings.now 1 second.place second.len }
    ensures { AnswerPost text.now named.now.styles.now named.now.sizes.now named.now.strings.now named.now.many
        (bytes_at own.now first) (bytes_at named.now.strings.now second) ids.old ids.new look
        (row source first) (row 1 second) result }
{
    let none = Span { place: 0, len: 0 };
    let b = resolve_pair(text, named, named.strings, 1, second, none, ids)?;
    scan::clear(ids);
    let a = resolve_pair(text, named, own, source, first, second, ids)?;
    let has = !crate::values::style_is_unstyled(look);
    let below = lay_over(a, has, look);
    Some(lay_over(below, b.found, b.look))
}
