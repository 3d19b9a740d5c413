// A text, read.
ghost use Rattle.promised.specs.Promise.{tables, Promise};
ghost use Rattle.blank.specs.Steps.{rest};
ghost use Rattle.whole.specs.Steps.{Asks, Post};
ghost use Rattle.reader.specs.Steps.{meant_by, AsksTree, TreePost};

use tree::Refusal;
use xml::Tree;

// The track of the first tt, or the cue of the first p.
#[derive(Clone, Copy)]
pub enum Wanted {
    Track,
    Cue,
}

// What the n rows of the tree mean.
fn read_nodes(
    tree: &Tree<'_>,
    head: &mut [u32],
    params: &mut [u32],
    styles: &mut [u32],
    regions: &mut [u32],
    cues: &mut [u32],
    times: &mut [i64],
    segments: &mut [u32],
    sizes: &mut [f32],
    extras: &mut [u32],
    texts: &mut [u8],
    n: usize,
    wanted: Wanted,
) -> Result<(), Refusal>
    requires { Asks tree.now.nodes.now tree.now.attrs.now tree.now.strings.now n (rest head.old params.old styles.old regions.old cues.old
        times.old segments.old sizes.old extras.old texts.old) }
    ensures { Post (meant_by wanted) tree.now.nodes.now tree.now.attrs.now tree.now.strings.now n
        (rest head.old params.old styles.old regions.old cues.old times.old
        segments.old sizes.old extras.old texts.old)
        (rest head.new params.new styles.new regions.new cues.new times.new
        segments.new sizes.new extras.new texts.new) result }
{
    match wanted {
        Wanted::Track => whole::read_track(
            tree, head, params, styles, regions, cues, times, segments, sizes, extras, texts, n,
        ),
        Wanted::Cue => single::read_cue(tree, head, cues, times, segments, texts, n),
    }
}

// What the tree means; after a refusal every cell is 0.
fn read_tree(
    nodes: &mut [u32],
    attrs: &mut [u32],
    head: &mut [u32],
    params: &mut [u32],
    styles: &mut [u32],
    regions: &mut [u32],
    cues: &mut [u32],
    times: &mut [i64],
    segments: &mut [u32],
    sizes: &mut [f32],
    extras: &mut [u32],
    strings: &mut [u8],
    texts: &mut [u8],
    n: usize,
    m: usize,
    len: usize,
    wanted: Wanted,
) -> Result<(), Refusal>
    requires { AsksTree nodes.old attrs.old strings.old n m len (rest head.old params.old styles.old regions.old cues.old
        times.old segments.old sizes.old extras.old texts.old) }
    ensures { TreePost (meant_by wanted) n len
        (tables nodes.old attrs.old head.old params.old styles.old regions.old
        cues.old times.old segments.old sizes.old extras.old strings.old
        texts.old)
        (tables nodes.new attrs.new head.new params.new styles.new regions.new
        cues.new times.new segments.new sizes.new extras.new strings.new
        texts.new) result }
{
    let tree = Tree {
        nodes,
        attrs,
        strings: &strings[..len],
    };
    match read_nodes(
        &tree, head, params, styles, regions, cues, times, segments, sizes, extras, texts, n,
        wanted,
    ) {
        Ok(()) => Ok(()),
        Err(r) => {
            blank::drop_tree(nodes, attrs, strings, n, m, len);
            Err(r)
        }
    }
}

// What is wanted of the text; after a refusal every cell is 0.
pub fn read_text(
    text: &[u8],
    nodes: &mut [u32],
    attrs: &mut [u32],
    head: &mut [u32],
    params: &mut [u32],
    styles: &mut [u32],
    regions: &mut [u32],
    cues: &mut [u32],
    times: &mut [i64],
    segments: &mut [u32],
    sizes: &mut [f32],
    extras: &mut [u32],
    strings: &mut [u8],
    texts: &mut [u8],
    wanted: Wanted,
) -> Result<(), Refusal>
    ensures { Promise (meant_by wanted) text.now
        (tables nodes.old attrs.old head.old params.old styles.old regions.old
        cues.old times.old segments.old sizes.old extras.old strings.old
        texts.old) result
        (tables nodes.new attrs.new head.new params.new styles.new regions.new
        cues.new times.new segments.new sizes.new extras.new strings.new
        texts.new) }
{
    if !blank::prepare(
        head, params, styles, regions, cues, times, segments, sizes, extras, texts,
    ) {
        blank::clear_tree(nodes, attrs, strings);
        return Err(Refusal {
            number: 1,
            place: 0,
        });
    }
    let tree = xml::parse_xml(text, nodes, attrs, strings)?;
    read_tree(
        nodes,
        attrs,
        head,
        params,
        styles,
        regions,
        cues,
        times,
        segments,
        sizes,
        extras,
        strings,
        texts,
        tree.nodes,
        tree.attrs,
        text.len(),
        wanted,
    )
}
