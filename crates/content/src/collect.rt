// The inline content of a p: its nodes as rows of segments, and their texts.
ghost use Rattle.std.specs.Prelude.{◌≡◌, List, ℕ, ◌+◌, ◌-◌, ◌*◌, ◌≤◌, ◌<◌, ◌^◌, length, get_or};
ghost use Rattle.scan.specs.Part.{string_at};
ghost use Rattle.meaning.specs.Kinds.{with_places};
ghost use Rattle.meaning.specs.Words.{ascii};
ghost use Rattle.meaning.specs.Timing.{time_of};
ghost use Rattle.meaning.specs.Styling.{wrappers_of};
ghost use Rattle.styling.specs.Posts.{Of, wrappers_in};
ghost use Rattle.inline.specs.Trims.{Ready};
ghost use Rattle.inline.specs.Wraps.{wrappers_from};
ghost use Rattle.content.specs.Steps.{Wide, Roomy, added_in, node_place, Writes, TextGiven, Ends, BreakGiven, wrappers_by, SpanGiven};
ghost use Rattle.content.specs.Steps.{begin_from, AsksNode, NodePost, AsksSpan, SpanPost, Asks, Post, AsksContent, ContentPost};

use inline::{Collapsed, Wrappers};
use styling::WsMode;
use times::TimingCtx;
use track::Span;
use tree::{ELEMENT, NODE_CELLS, Refusal, SECTION};
use xml::{Attributes, Tree};

// How many rows of segments there are, and whether what follows stands at a boundary.
#[derive(Clone, Copy)]
pub struct Run {
    pub rows: usize,
    pub boundary: bool,
}

// The bytes of a section's opening: a section begins before its string.
const OPENING: usize = 9;

fn added(a: Option<usize>, boundary: bool, place: usize) -> Result<Run, Refusal>
    ensures { result ≡ added_in a boundary place }
{
    let rows = a.ok_or(Refusal { number: 13, place })?;
    Ok(Run { rows, boundary })
}

// The place of node k in the text: its first byte.
fn node_place(nodes: &[u32], k: usize) -> usize
    requires { k * 6 + 6 ≤ length nodes.now }
    ensures { result ≡ node_place nodes.now k }
{
    let place = scan::get(nodes, k * NODE_CELLS + 2);
    if nodes[k * NODE_CELLS] == SECTION {
        place.saturating_sub(OPENING)
    } else {
        place
    }
}

// The string at a place in its mode, in `texts` from the same place on.
fn write_text(
    strings: &[u8],
    texts: &mut [u8],
    place: usize,
    len: usize,
    ws: WsMode,
    boundary: bool,
) -> Collapsed
    requires { (place + len ≤ length strings.now) × (place + len ≤ length texts.old) }
    ensures { Writes (record { place = place; bytes = string_at strings.now place len }) boundary ws
        texts.old texts.new result }
{
    match ws {
        WsMode::Collapse => inline::collapse_text(strings, texts, place, len, boundary),
        WsMode::Preserve => inline::copy_text(strings, texts, place, len, boundary),
    }
}

// A text or a section: what is left of it is one row, unless that is nothing.
fn collect_text(
    tree: &Tree<'_>,
    segments: &mut [u32],
    texts: &mut [u8],
    k: usize,
    ws: WsMode,
    run: Run,
) -> Result<Run, Refusal>
    requires { Roomy tree.now.strings.now segments.old texts.old × (run.rows ≤ 16384) × (k * 6 + 6 ≤ length tree.now.nodes.now)
        × (get_or tree.now.nodes.now (k * 6 + 2) 0 + get_or tree.now.nodes.now (k * 6 + 3) 0 ≤ length tree.now.strings.now) }
    ensures { TextGiven tree.now.nodes.now tree.now.strings.now k ws run
        segments.old texts.old segments.new texts.new result }
{
    let place = scan::get(tree.nodes, k * NODE_CELLS + 2);
    let len = scan::get(tree.nodes, k * NODE_CELLS + 3);
    let c = write_text(tree.strings, texts, place, len, ws, run.boundary);
    if c.len == 0 {
        return Ok(Run {
            rows: run.rows,
            boundary: c.boundary,
        });
    }
    let text = Span { place, len: c.len };
    let a = records::add_text(segments, run.rows, text);
    added(a, c.boundary, node_place(tree.nodes, k))
}

// In collapse mode the segments in the rows from `first` up to `end` lose a space at their end.
fn end_siblings(segments: &mut [u32], texts: &mut [u8], ws: WsMode, first: usize, end: usize)
    requires { (first ≤ end) × Ready segments.old texts.old first end }
    ensures { Ends ws first end segments.old texts.old segments.new texts.new }
{
    if let WsMode::Collapse = ws {
        inline::trim_trailing_space(segments, texts, first, end);
    }
}

// A break: it ends what its earlier siblings gave, in the rows from `first` on.
fn collect_break(
    segments: &mut [u32],
    texts: &mut [u8],
    place: usize,
    ws: WsMode,
    first: usize,
    rows: usize,
) -> Result<Run, Refusal>
    requires { Wide segments.old × (first ≤ rows) × Ready segments.old texts.old first rows }
    ensures { BreakGiven place first rows ws
        segments.old texts.old segments.new texts.new result }
{
    end_siblings(segments, texts, ws, first, rows);
    let a = records::add_break(segments, rows);
    added(a, true, place)
}

// The wrappers of an element as they are put around rows.
pub fn around(w: styling::Wrappers) -> Wrappers
    ensures { (result.font ≡ w.font) × ((z : List ℕ) → w.font.family.place + w.font.family.len ≤ length z
        → wrappers_from result ≡ wrappers_by (wrappers_in z w)) }
{
    let font = w.font;
    let color = w.color;
    Wrappers {
        has_font: font.has_family || font.has_size,
        font,
        has_color: w.has_color,
        color,
        strike: w.strike,
        underline: w.underline,
        italic: w.italic,
        bold: w.bold,
    }
}

// A span whose content stands in the rows from `first` on: its timestamp and its wrappers before them.
fn wrap_with_style(
    attrs: &Attributes<'_>,
    segments: &mut [u32],
    place: usize,
    first: usize,
    inner: Run,
    stamp: bool,
    time: i64,
) -> Result<Run, Refusal>
    requires { (first ≤ inner.rows) × (inner.rows ≤ 16384) × Wide segments.old × (length attrs.now.strings.now < 2 ^ 32) }
    ensures { Of attrs.now (λ l. (y : List ℕ)
        → SpanGiven (wrappers_of with_places l) place first inner.rows inner.boundary stamp time
        segments.old y segments.new result) }
{
    let w = styling::wrappers_of(attrs)?;
    let a = inline::put_span(segments, first, inner.rows, stamp, time, around(w));
    added(a, inner.boundary, place)
}

// When a span begins: its own begin, if that is a time, counted from `base`.
fn begin_of(
    attrs: &Attributes<'_>,
    place: usize,
    base: i64,
    ctx: TimingCtx,
) -> Result<Option<i64>, Refusal>
    ensures { Of attrs.now (λ l.
        result ≡ begin_from place base (time_of with_places ctx place (ascii "begin") l)) }
{
    match styling::time_attr(attrs, b"begin", ctx, place)? {
        Some(begin) => Ok(Some(styling::add_times(base, begin, place)?)),
        None => Ok(None),
    }
}

// Node k, and what stands inside it. `first` is the first row that its earlier siblings gave.
#[cycle(collect_node_collect_segments_inner_collect_span)]
fn collect_node(
    tree: &Tree<'_>,
    segments: &mut [u32],
    texts: &mut [u8],
    k: usize,
    base: i64,
    ctx: TimingCtx,
    ws: WsMode,
    first: usize,
    run: Run,
) -> Result<Run, Refusal>
    requires { AsksNode tree.now.nodes.now tree.now.attrs.now tree.now.strings.now k first run segments.old texts.old }
    ensures { NodePost tree.now.nodes.now tree.now.attrs.now tree.now.strings.now k first run base ctx ws
        segments.old texts.old segments.new texts.new result }
{
    if tree.nodes[k * NODE_CELLS] != ELEMENT {
        return collect_text(tree, segments, texts, k, ws, run);
    }
    let e = xml::element_at(tree.nodes, k);
    if xml::is_element(tree.nodes, tree.strings, k, b"br") {
        return collect_break(segments, texts, e.place, ws, first, run.rows);
    }
    if xml::is_element(tree.nodes, tree.strings, k, b"span") {
        return collect_span(tree, segments, texts, k, base, ctx, ws, run);
    }
    collect_segments_inner(tree, segments, texts, k + 1, e.end, base, ctx, ws, run)
}

// A span in row k.
#[cycle(collect_node_collect_segments_inner_collect_span)]
fn collect_span(
    tree: &Tree<'_>,
    segments: &mut [u32],
    texts: &mut [u8],
    k: usize,
    base: i64,
    ctx: TimingCtx,
    ws: WsMode,
    run: Run,
) -> Result<Run, Refusal>
    requires { AsksSpan tree.now.nodes.now tree.now.attrs.now tree.now.strings.now k run segments.old texts.old }
    ensures { SpanPost tree.now.nodes.now tree.now.attrs.now tree.now.strings.now k run base ctx ws
        segments.old texts.old segments.new texts.new result }
{
    let e = xml::element_at(tree.nodes, k);
    let attrs = tree.attributes(e);
    let begin = begin_of(&attrs, e.place, base, ctx)?;
    let from = begin.unwrap_or(base);
    let inside = styling::resolve_ws(&attrs, ws);
    let inner = collect_segments_inner(
        tree,
        segments,
        texts,
        k + 1,
        e.end,
        from,
        ctx,
        inside,
        run,
    )?;
    wrap_with_style(
        &attrs,
        segments,
        e.place,
        run.rows,
        inner,
        begin.is_some(),
        from,
    )
}

// The siblings in the rows from `from` up to `end`: a list of their own.
#[cycle(collect_node_collect_segments_inner_collect_span)]
pub fn collect_segments_inner(
    tree: &Tree<'_>,
    segments: &mut [u32],
    texts: &mut [u8],
    from: usize,
    end: usize,
    base: i64,
    ctx: TimingCtx,
    ws: WsMode,
    run: Run,
) -> Result<Run, Refusal>
    requires { Asks tree.now.nodes.now tree.now.attrs.now tree.now.strings.now from end run segments.old texts.old }
    ensures { Post tree.now.nodes.now tree.now.attrs.now tree.now.strings.now from end run base ctx ws
        segments.old texts.old segments.new texts.new result }
{
    let first = run.rows;
    let mut s = run;
    let mut k = from;
    while k < end {
        s = collect_node(tree, segments, texts, k, base, ctx, ws, first, s)?;
        k = scan::get(tree.nodes, k * NODE_CELLS + 1);
    }
    Ok(s)
}

// The content of a p or of a single cue, from row `rows` on: in collapse mode without a space at its end.
pub fn collect_segments_timed(
    tree: &Tree<'_>,
    segments: &mut [u32],
    texts: &mut [u8],
    from: usize,
    end: usize,
    base: i64,
    ctx: TimingCtx,
    ws: WsMode,
    rows: usize,
) -> Result<Run, Refusal>
    requires { AsksContent tree.now.nodes.now tree.now.attrs.now tree.now.strings.now from end rows segments.old texts.old }
    ensures { ContentPost tree.now.nodes.now tree.now.attrs.now tree.now.strings.now from end rows base ctx ws
        segments.old texts.old segments.new texts.new result }
{
    let run = Run {
        rows,
        boundary: true,
    };
    let s = collect_segments_inner(tree, segments, texts, from, end, base, ctx, ws, run)?;
    end_siblings(segments, texts, ws, rows, s.rows);
    Ok(s)
}
