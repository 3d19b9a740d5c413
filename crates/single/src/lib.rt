#![tactic(auto)]
// A single cue: what the first p of a tree means.
ghost use Rattle.std.specs.Prelude.{◌≡◌};
ghost use Rattle.std.proofs.Math.Option.{none};
ghost use Rattle.meaning.specs.Kinds.{with_places};
ghost use Rattle.meaning.specs.Meaning.{timing, cue_in};
ghost use Rattle.styling.specs.Posts.{Of};
ghost use Rattle.single.specs.Steps.{cue_rest, CueAsks, CuePost, ElementAsks, ElementPost, timed_cue, AloneAsks, Alone};

use intervals::Interval;
use records::Head;
use styling::WsMode;
use times::TimingCtx;
use track::{Cue, Rows, Span};
use tree::Refusal;
use xml::{Attributes, Tree};

fn no_rates() -> TimingCtx
    ensures { result ≡ timing none none }
{
    TimingCtx {
        frame_rate: 0.0,
        has_frame_rate: false,
        tick_rate: 0.0,
        has_tick_rate: false,
    }
}

// The cue in the first row, its segments being the first `rows`, and the head of a track of it alone.
fn put_alone(
    attrs: &Attributes<'_>,
    head: &mut [u32],
    cues: &mut [u32],
    times: &mut [i64],
    when: Interval,
    rows: usize,
)
    requires { AloneAsks attrs.now.strings.now rows head.old cues.old times.old }
    ensures { Of attrs.now (λ l.
        Alone attrs.now.strings.now when rows l head.old head.new cues.old cues.new
        times.old times.new) }
{
    let style = cues::value_of(attrs, b"style");
    let nowhere = Span { place: 0, len: 0 };
    let row = Cue {
        start: when.start,
        end: when.end,
        has_style: style.is_some(),
        style: style.unwrap_or(nowhere),
        has_region: false,
        region: nowhere,
        preserve: false,
        segments: Rows {
            first: 0,
            count: rows,
        },
        extras: Rows { first: 0, count: 0 },
    };
    records::add_cue(cues, times, 0, row);
    let used = attrs.strings.len();
    records::put_head(
        head,
        Head {
            params: 0,
            styles: 0,
            regions: 0,
            cues: 1,
            segments: rows,
            has_lang: false,
            lang: nowhere,
            strings: used,
            texts: used,
        },
    );
}

// The p in row k, when its times are known.
fn read_timed(
    tree: &Tree<'_>,
    head: &mut [u32],
    cues: &mut [u32],
    times: &mut [i64],
    segments: &mut [u32],
    texts: &mut [u8],
    k: usize,
    when: Interval,
) -> Result<(), Refusal>
    requires { ElementAsks tree.now.nodes.now tree.now.attrs.now tree.now.strings.now k
        (cue_rest head.old cues.old times.old segments.old texts.old) }
    ensures { ElementPost (timed_cue when) tree.now.nodes.now tree.now.attrs.now tree.now.strings.now k
        (cue_rest head.old cues.old times.old segments.old texts.old)
        (cue_rest head.new cues.new times.new segments.new texts.new) result }
{
    let e = xml::element_at(tree.nodes, k);
    let attrs = tree.attributes(e);
    let ws = styling::resolve_ws(&attrs, WsMode::Collapse);
    let run = match content::collect_segments_timed(
        tree,
        segments,
        texts,
        k + 1,
        e.end,
        0,
        no_rates(),
        ws,
        0,
    ) {
        Ok(run) => run,
        Err(r) => {
            scan::clear(segments);
            scan::clear_bytes(texts);
            return Err(r);
        }
    };
    put_alone(&attrs, head, cues, times, when, run.rows);
    Ok(())
}

// The p in row k.
fn read_p(
    tree: &Tree<'_>,
    head: &mut [u32],
    cues: &mut [u32],
    times: &mut [i64],
    segments: &mut [u32],
    texts: &mut [u8],
    k: usize,
) -> Result<(), Refusal>
    requires { ElementAsks tree.now.nodes.now tree.now.attrs.now tree.now.strings.now k
        (cue_rest head.old cues.old times.old segments.old texts.old) }
    ensures { ElementPost (cue_in with_places) tree.now.nodes.now tree.now.attrs.now tree.now.strings.now k
        (cue_rest head.old cues.old times.old segments.old texts.old)
        (cue_rest head.new cues.new times.new segments.new texts.new) result }
{
    let e = xml::element_at(tree.nodes, k);
    let attrs = tree.attributes(e);
    let when = intervals::single_interval(&attrs, e.place, no_rates())?;
    read_timed(tree, head, cues, times, segments, texts, k, when)
}

// The cue of the first p among the n rows of the tree.
pub fn read_cue(
    tree: &Tree<'_>,
    head: &mut [u32],
    cues: &mut [u32],
    times: &mut [i64],
    segments: &mut [u32],
    texts: &mut [u8],
    n: usize,
) -> Result<(), Refusal>
    requires { CueAsks tree.now.nodes.now tree.now.attrs.now tree.now.strings.now n (cue_rest head.old cues.old times.old segments.old texts.old) }
    ensures { CuePost tree.now.nodes.now tree.now.attrs.now tree.now.strings.now n
        (cue_rest head.old cues.old times.old segments.old texts.old)
        (cue_rest head.new cues.new times.new segments.new texts.new) result }
{
    let Some(k) = xml::find_element(tree.nodes, tree.strings, 0, n, b"p") else {
        return Err(Refusal {
            number: 12,
            place: 0,
        });
    };
    read_p(tree, head, cues, times, segments, texts, k)
}
