#![tactic(auto)]
// The track of a tree: what its first tt means.
ghost use Rattle.std.specs.Prelude.{List, ℕ};
ghost use Rattle.meaning.specs.Kinds.{with_places};
ghost use Rattle.meaning.specs.Meaning.{track_in};
ghost use Rattle.laid.specs.Laid.{whole};
ghost use Rattle.styling.specs.Posts.{Of};
ghost use Rattle.blank.specs.Steps.{rest};
ghost use Rattle.whole.specs.Steps.{Asks, Post, LangIs, HeadAsks, HeadPut, ContentAsks, ContentPost, TrackAsks, TrackPost};

use cues::Line;
use heads::Heads;
use records::Head;
use styling::WsMode;
use times::TimingCtx;
use track::Span;
use tree::Refusal;
use xml::{Attributes, Tree};

// The language of tt.
fn lang_of(attrs: &Attributes<'_>) -> Option<Span>
    ensures { Of attrs.now (λ l. LangIs attrs.now.strings.now l result) }
{
    let h = params::lang_of(attrs)?;
    Some(Span {
        place: h.place,
        len: h.len,
    })
}

// The head of the track: so many parameters, and what stands in the other tables.
fn put_whole(attrs: &Attributes<'_>, head: &mut [u32], count: usize, heads: Heads, line: Line)
    requires { HeadAsks attrs.now.strings.now count heads line head.old }
    ensures { Of attrs.now (λ l. HeadPut attrs.now.strings.now count heads line l head.old head.new) }
{
    let lang = lang_of(attrs);
    let used = attrs.strings.len();
    records::put_head(
        head,
        Head {
            params: count,
            styles: heads.styles,
            regions: heads.regions,
            cues: line.cues,
            segments: line.rows,
            has_lang: lang.is_some(),
            lang: lang.unwrap_or(Span { place: 0, len: 0 }),
            strings: used,
            texts: used,
        },
    );
}

// The head and the body of the tt in row k, when its parameters and rates are known. After a refusal what they have written is cleared.
fn read_content(
    tree: &Tree<'_>,
    head: &mut [u32],
    styles: &mut [u32],
    regions: &mut [u32],
    cues: &mut [u32],
    times: &mut [i64],
    segments: &mut [u32],
    sizes: &mut [f32],
    extras: &mut [u32],
    texts: &mut [u8],
    k: usize,
    count: usize,
    ctx: TimingCtx,
) -> Result<(), Refusal>
    requires { (p : List ℕ) × ContentAsks tree.now.nodes.now tree.now.attrs.now tree.now.strings.now k count
        (rest head.old p styles.old regions.old cues.old times.old segments.old sizes.old extras.old texts.old) }
    ensures { (p : List ℕ) → ContentPost tree.now.nodes.now tree.now.attrs.now tree.now.strings.now k count ctx
        (rest head.old p styles.old regions.old cues.old times.old segments.old
        sizes.old extras.old texts.old)
        (rest head.new p styles.new regions.new cues.new times.new segments.new
        sizes.new extras.new texts.new) result }
{
    let e = xml::element_at(tree.nodes, k);
    let from = k + 1;
    let h = match heads::collect_head(tree, from, e.end, styles, regions, sizes, extras) {
        Ok(h) => h,
        Err(r) => {
            blank::clear_head(styles, regions, sizes, extras);
            return Err(r);
        }
    };
    let attrs = tree.attributes(e);
    let ws = styling::resolve_ws(&attrs, WsMode::Collapse);
    let line = match cues::collect_body(
        tree, cues, times, segments, extras, texts, from, e.end, ctx, ws, h.extras,
    ) {
        Ok(line) => line,
        Err(r) => {
            blank::clear_head(styles, regions, sizes, extras);
            blank::clear_body(cues, times, segments, texts);
            return Err(r);
        }
    };
    put_whole(&attrs, head, count, h, line);
    Ok(())
}

// The tt in row k: its parameters are counted before its rates are read.
fn read_tt(
    tree: &Tree<'_>,
    head: &mut [u32],
    params: &mut [u32],
    styles: &mut [u32],
    regions: &mut [u32],
    cues: &mut [u32],
    times: &mut [i64],
    segments: &mut [u32],
    sizes: &mut [f32],
    extras: &mut [u32],
    texts: &mut [u8],
    k: usize,
) -> Result<(), Refusal>
    requires { TrackAsks tree.now.nodes.now tree.now.attrs.now tree.now.strings.now k (rest head.old params.old styles.old regions.old cues.old
        times.old segments.old sizes.old extras.old texts.old) }
    ensures { TrackPost (track_in with_places) tree.now.nodes.now tree.now.attrs.now tree.now.strings.now k
        (rest head.old params.old styles.old regions.old cues.old times.old
        segments.old sizes.old extras.old texts.old)
        (rest head.new params.new styles.new regions.new cues.new times.new
        segments.new sizes.new extras.new texts.new) result }
{
    let e = xml::element_at(tree.nodes, k);
    let attrs = tree.attributes(e);
    let Some(count) = params::collect_params(&attrs, params) else {
        scan::clear(params);
        return Err(Refusal {
            number: 13,
            place: e.place,
        });
    };
    let ctx = match params::timing_of(&attrs) {
        Ok(ctx) => ctx,
        Err(r) => {
            scan::clear(params);
            return Err(r);
        }
    };
    if let Err(r) = read_content(
        tree, head, styles, regions, cues, times, segments, sizes, extras, texts, k, count, ctx,
    ) {
        scan::clear(params);
        return Err(r);
    }
    Ok(())
}

// The track of the first tt among the n rows of the tree.
pub fn read_track(
    tree: &Tree<'_>,
    head: &mut [u32],
    params: &mut [u32],
    styles: &mut [u32],
    regions: &mut [u32],
    cues: &mut [u32],
    times: &mut [i64],
    segments: &mut [u32],
    sizes: &mut [f32],
    extras: &mut [u32],
    texts: &mut [u8],
    n: usize,
) -> Result<(), Refusal>
    requires { Asks tree.now.nodes.now tree.now.attrs.now tree.now.strings.now n (rest head.old params.old styles.old regions.old cues.old
        times.old segments.old sizes.old extras.old texts.old) }
    ensures { Post whole tree.now.nodes.now tree.now.attrs.now tree.now.strings.now n
        (rest head.old params.old styles.old regions.old cues.old times.old
        segments.old sizes.old extras.old texts.old)
        (rest head.new params.new styles.new regions.new cues.new times.new
        segments.new sizes.new extras.new texts.new) result }
{
    let Some(k) = xml::find_element(tree.nodes, tree.strings, 0, n, b"tt") else {
        return Err(Refusal {
            number: 12,
            place: 0,
        });
    };
    read_tt(
        tree, head, params, styles, regions, cues, times, segments, sizes, extras, texts, k,
    )
}
