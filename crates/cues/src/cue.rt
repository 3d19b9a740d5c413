// A p as a cue.
ghost use Rattle.styling.specs.Posts.{Of};
ghost use Rattle.cues.specs.Steps.{AsksSegments, SegmentsPost, AsksCue, CueOutcome, five, AsksChild, ParagraphPost};

use crate::lines::Line;
use intervals::Interval;
use styling::WsMode;
use times::TimingCtx;
use track::{Cue, Rows, Span};
use tree::Refusal;
use xml::{Attributes, Tree};

// The segments of the p whose element is e, in row k, from row `rows` on.
fn collect_segments(
    tree: &Tree<'_>,
    segments: &mut [u32],
    texts: &mut [u8],
    k: usize,
    e: xml::Element,
    start: i64,
    ctx: TimingCtx,
    ws: WsMode,
    rows: usize,
) -> Result<usize, Refusal>
    requires { AsksSegments tree.now.nodes.now tree.now.attrs.now tree.now.strings.now k e rows segments.old texts.old }
    ensures { SegmentsPost tree.now.nodes.now tree.now.attrs.now tree.now.strings.now k e start ctx ws rows
        segments.old texts.old segments.new texts.new result }
{
    let run = content::collect_segments_timed(
        tree,
        segments,
        texts,
        k + 1,
        e.end,
        start,
        ctx,
        ws,
        rows,
    )?;
    crate::paragraph::style_paragraph(&tree.attributes(e), segments, e.place, rows, run.rows)
}

// The cue of the p in its row, with its extras: its segments stand up to row `rows`.
fn add_paragraph(
    attrs: &Attributes<'_>,
    cues: &mut [u32],
    times: &mut [i64],
    extras: &mut [u32],
    place: usize,
    when: Interval,
    ws: WsMode,
    line: Line,
    rows: usize,
) -> Result<Line, Refusal>
    requires { AsksCue attrs.now.strings.now attrs.now.many line rows cues.old times.old extras.old }
    ensures { Of attrs.now (λ l.
        CueOutcome place attrs.now.many when ws line rows cues.old cues.new times.old times.new
        extras.old extras.new l result) }
{
    let kept = extras::collect_p_inline_extras(attrs, extras, line.extras);
    let count = kept.count;
    let style = crate::paragraph::value_of(attrs, b"style");
    let region = crate::paragraph::value_of(attrs, b"region");
    let nowhere = Span { place: 0, len: 0 };
    let row = Cue {
        start: when.start,
        end: when.end,
        has_style: style.is_some(),
        style: style.unwrap_or(nowhere),
        has_region: region.is_some(),
        region: region.unwrap_or(nowhere),
        preserve: crate::paragraph::is_preserve(ws),
        segments: Rows {
            first: line.rows,
            count: rows - line.rows,
        },
        extras: kept,
    };
    let n = records::add_cue(cues, times, line.cues, row).ok_or(Refusal { number: 13, place })?;
    Ok(Line {
        cues: n,
        rows,
        extras: line.extras + count,
        end: when.end,
    })
}

// The p in row k, which counts from `reference`.
pub fn collect_paragraph(
    tree: &Tree<'_>,
    cues: &mut [u32],
    times: &mut [i64],
    segments: &mut [u32],
    extras: &mut [u32],
    texts: &mut [u8],
    k: usize,
    reference: i64,
    ctx: TimingCtx,
    ws: WsMode,
    line: Line,
) -> Result<Line, Refusal>
    requires { AsksChild tree.now.nodes.now tree.now.attrs.now tree.now.strings.now k line
        (five cues.old times.old segments.old extras.old texts.old) }
    ensures { ParagraphPost tree.now.nodes.now tree.now.attrs.now tree.now.strings.now k reference ctx ws line
        (five cues.old times.old segments.old extras.old texts.old)
        (five cues.new times.new segments.new extras.new texts.new) result }
{
    let e = xml::element_at(tree.nodes, k);
    let attrs = tree.attributes(e);
    let when = intervals::interval_of(&attrs, e.place, ctx, reference)?;
    let inside = styling::resolve_ws(&attrs, ws);
    let rows = collect_segments(
        tree, segments, texts, k, e, when.start, ctx, inside, line.rows,
    )?;
    add_paragraph(
        &attrs, cues, times, extras, e.place, when, inside, line, rows,
    )
}
