// The cues of timed elements: div and p, and unknown elements around them.
ghost use Rattle.std.specs.Prelude.{◌≡◌};
ghost use Rattle.styling.specs.Posts.{Of};
ghost use Rattle.cues.specs.Steps.{five, following, Closes, AsksChild, ContainerPost, DivPost, ElementPost, AsksCues, CuesPost};

use crate::lines::Line;
use styling::WsMode;
use times::TimingCtx;
use tree::{ELEMENT, NODE_CELLS, Refusal};
use xml::{Attributes, Tree};

// What the next child counts from: in a seq container the end of this one.
fn following(seq: bool, begin: i64, end: i64) -> i64
    ensures { result ≡ following seq begin end }
{
    if seq { end } else { begin }
}

// A div whose children gave this line: its dur is evaluated after them.
fn close_div(
    attrs: &Attributes<'_>,
    place: usize,
    ctx: TimingCtx,
    start: i64,
    inner: Line,
) -> Result<Line, Refusal>
    ensures { Of attrs.now (λ l. Closes ctx place start inner l result) }
{
    let end = intervals::lasting_to(attrs, place, ctx, start, inner.end)?;
    Ok(Line { end, ..inner })
}

// The container in row k, div or body, which begins at `begin`.
#[cycle(collect_container_collect_cues_collect_div_collect_element)]
pub fn collect_container(
    tree: &Tree<'_>,
    cues: &mut [u32],
    times: &mut [i64],
    segments: &mut [u32],
    extras: &mut [u32],
    texts: &mut [u8],
    k: usize,
    begin: i64,
    ctx: TimingCtx,
    ws: WsMode,
    line: Line,
) -> Result<Line, Refusal>
    requires { AsksChild tree.now.nodes.now tree.now.attrs.now tree.now.strings.now k line
        (five cues.old times.old segments.old extras.old texts.old) }
    ensures { ContainerPost tree.now.nodes.now tree.now.attrs.now tree.now.strings.now k begin ctx ws line
        (five cues.old times.old segments.old extras.old texts.old)
        (five cues.new times.new segments.new extras.new texts.new) result }
{
    let e = xml::element_at(tree.nodes, k);
    let attrs = tree.attributes(e);
    let seq = styling::is_seq_container(&attrs);
    let inside = styling::resolve_ws(&attrs, ws);
    collect_cues(
        tree,
        cues,
        times,
        segments,
        extras,
        texts,
        k + 1,
        e.end,
        seq,
        begin,
        ctx,
        inside,
        line,
    )
}

// The div in row k, which counts from `reference`.
#[cycle(collect_container_collect_cues_collect_div_collect_element)]
fn collect_div(
    tree: &Tree<'_>,
    cues: &mut [u32],
    times: &mut [i64],
    segments: &mut [u32],
    extras: &mut [u32],
    texts: &mut [u8],
    k: usize,
    reference: i64,
    ctx: TimingCtx,
    ws: WsMode,
    line: Line,
) -> Result<Line, Refusal>
    requires { AsksChild tree.now.nodes.now tree.now.attrs.now tree.now.strings.now k line
        (five cues.old times.old segments.old extras.old texts.old) }
    ensures { DivPost tree.now.nodes.now tree.now.attrs.now tree.now.strings.now k reference ctx ws line
        (five cues.old times.old segments.old extras.old texts.old)
        (five cues.new times.new segments.new extras.new texts.new) result }
{
    let e = xml::element_at(tree.nodes, k);
    let attrs = tree.attributes(e);
    let start = intervals::start_of(&attrs, e.place, ctx, reference)?;
    let inner = collect_container(
        tree, cues, times, segments, extras, texts, k, start, ctx, ws, line,
    )?;
    close_div(&attrs, e.place, ctx, start, inner)
}

// The element in row k, which counts from `reference`. An unknown one is a container that begins there, of the kind around it.
#[cycle(collect_container_collect_cues_collect_div_collect_element)]
fn collect_element(
    tree: &Tree<'_>,
    cues: &mut [u32],
    times: &mut [i64],
    segments: &mut [u32],
    extras: &mut [u32],
    texts: &mut [u8],
    k: usize,
    seq: bool,
    reference: i64,
    ctx: TimingCtx,
    ws: WsMode,
    line: Line,
) -> Result<Line, Refusal>
    requires { AsksChild tree.now.nodes.now tree.now.attrs.now tree.now.strings.now k line
        (five cues.old times.old segments.old extras.old texts.old) }
    ensures { ElementPost tree.now.nodes.now tree.now.attrs.now tree.now.strings.now k seq reference ctx ws line
        (five cues.old times.old segments.old extras.old texts.old)
        (five cues.new times.new segments.new extras.new texts.new) result }
{
    if xml::is_element(tree.nodes, tree.strings, k, b"div") {
        return collect_div(
            tree, cues, times, segments, extras, texts, k, reference, ctx, ws, line,
        );
    }
    if xml::is_element(tree.nodes, tree.strings, k, b"p") {
        return crate::cue::collect_paragraph(
            tree, cues, times, segments, extras, texts, k, reference, ctx, ws, line,
        );
    }
    let e = xml::element_at(tree.nodes, k);
    let attrs = tree.attributes(e);
    let inside = styling::resolve_ws(&attrs, ws);
    collect_cues(
        tree,
        cues,
        times,
        segments,
        extras,
        texts,
        k + 1,
        e.end,
        seq,
        reference,
        ctx,
        inside,
        line,
    )
}

// The children of a container that begins at `begin`, in the rows from `from` up to `end`. Its line ends when the last of them does.
#[cycle(collect_container_collect_cues_collect_div_collect_element)]
pub fn collect_cues(
    tree: &Tree<'_>,
    cues: &mut [u32],
    times: &mut [i64],
    segments: &mut [u32],
    extras: &mut [u32],
    texts: &mut [u8],
    from: usize,
    end: usize,
    seq: bool,
    begin: i64,
    ctx: TimingCtx,
    ws: WsMode,
    line: Line,
) -> Result<Line, Refusal>
    requires { AsksCues tree.now.nodes.now tree.now.attrs.now tree.now.strings.now from end line
        (five cues.old times.old segments.old extras.old texts.old) }
    ensures { CuesPost tree.now.nodes.now tree.now.attrs.now tree.now.strings.now from end seq begin ctx ws line
        (five cues.old times.old segments.old extras.old texts.old)
        (five cues.new times.new segments.new extras.new texts.new) result }
{
    let mut s = line;
    let mut latest = begin;
    let mut reference = begin;
    let mut k = from;
    while k < end {
        let next = scan::get(tree.nodes, k * NODE_CELLS + 1);
        if tree.nodes[k * NODE_CELLS] != ELEMENT {
            k = next;
            continue;
        }
        s = collect_element(
            tree, cues, times, segments, extras, texts, k, seq, reference, ctx, ws, s,
        )?;
        reference = following(seq, begin, s.end);
        latest = latest.max(s.end);
        k = next;
    }
    Ok(Line { end: latest, ..s })
}
