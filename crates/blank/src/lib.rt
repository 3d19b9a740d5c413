#![tactic(auto)]
// The tables of a call: cleared, and long enough or not.
ghost use Rattle.std.specs.Prelude.{◌≡◌, pos, length, replicate};
ghost use Rattle.track.specs.Tables.{lengths, zero_float};
ghost use Rattle.xml.specs.Promise.{AllZero};
ghost use Rattle.promised.proofs.Promises.{RestLong, RestZero};
ghost use Rattle.blank.specs.Steps.{tree_tables, rest, Tells, Prepared, Ends};

const HEAD: usize = track::HEAD_CELLS;

const PARAMS: usize = track::PARAMS * track::PARAM_CELLS;

const STYLES: usize = track::STYLES * track::STYLE_CELLS;

const REGIONS: usize = track::REGIONS * track::REGION_CELLS;

const CUES: usize = track::CUES * track::CUE_CELLS;

const TIMES: usize = track::CUES * 2;

const SEGMENTS: usize = track::SEGMENTS * track::SEGMENT_CELLS;

const SIZES: usize = track::STYLES;

const EXTRAS: usize = track::EXTRAS * track::EXTRA_CELLS;

const TEXTS: usize = tree::BYTES;

// ---- those of a track but for its strings, which the tree reader tests and clears

// Every cell of the tables that the head writes is 0;
pub fn clear_head(styles: &mut [u32], regions: &mut [u32], sizes: &mut [f32], extras: &mut [u32])
    ensures { (styles.new ≡ replicate (length styles.old) 0)
        × (regions.new ≡ replicate (length regions.old) 0)
        × (sizes.new ≡ replicate (length sizes.old) zero_float)
        × (extras.new ≡ replicate (length extras.old) 0) }
{
    scan::clear(styles);
    scan::clear(regions);
    scan::clear_f32(sizes);
    scan::clear(extras);
}

// of those that the body writes, but for the extras;
pub fn clear_body(cues: &mut [u32], times: &mut [i64], segments: &mut [u32], texts: &mut [u8])
    ensures { (cues.new ≡ replicate (length cues.old) 0)
        × (times.new ≡ replicate (length times.old) (pos 0))
        × (segments.new ≡ replicate (length segments.old) 0)
        × (texts.new ≡ replicate (length texts.old) 0) }
{
    scan::clear(cues);
    scan::clear_i64(times);
    scan::clear(segments);
    scan::clear_bytes(texts);
}

// of all.
fn clear_track(
    head: &mut [u32],
    params: &mut [u32],
    styles: &mut [u32],
    regions: &mut [u32],
    cues: &mut [u32],
    times: &mut [i64],
    segments: &mut [u32],
    sizes: &mut [f32],
    extras: &mut [u32],
    texts: &mut [u8],
)
    ensures { RestZero
        (lengths (rest head.old params.old styles.old regions.old cues.old
        times.old segments.old sizes.old extras.old texts.old))
        (rest head.new params.new styles.new regions.new cues.new times.new
        segments.new sizes.new extras.new texts.new) }
{
    scan::clear(head);
    scan::clear(params);
    clear_head(styles, regions, sizes, extras);
    clear_body(cues, times, segments, texts);
}

// Is each at least as long as its fixed length?
fn long_enough(
    head: &[u32],
    params: &[u32],
    styles: &[u32],
    regions: &[u32],
    cues: &[u32],
    times: &[i64],
    segments: &[u32],
    sizes: &[f32],
    extras: &[u32],
    texts: &[u8],
) -> bool
    ensures { Tells (RestLong
        (lengths (rest head.now params.now styles.now regions.now cues.now
        times.now segments.now sizes.now extras.now texts.now))) result }
{
    HEAD <= head.len()
        && PARAMS <= params.len()
        && STYLES <= styles.len()
        && REGIONS <= regions.len()
        && CUES <= cues.len()
        && TIMES <= times.len()
        && SEGMENTS <= segments.len()
        && SIZES <= sizes.len()
        && EXTRAS <= extras.len()
        && TEXTS <= texts.len()
}

// Every cell is 0; is each table long enough?
pub fn prepare(
    head: &mut [u32],
    params: &mut [u32],
    styles: &mut [u32],
    regions: &mut [u32],
    cues: &mut [u32],
    times: &mut [i64],
    segments: &mut [u32],
    sizes: &mut [f32],
    extras: &mut [u32],
    texts: &mut [u8],
) -> bool
    ensures { Prepared
        (rest head.old params.old styles.old regions.old cues.old times.old
        segments.old sizes.old extras.old texts.old)
        (rest head.new params.new styles.new regions.new cues.new times.new
        segments.new sizes.new extras.new texts.new) result }
{
    clear_track(
        head, params, styles, regions, cues, times, segments, sizes, extras, texts,
    );
    long_enough(
        head, params, styles, regions, cues, times, segments, sizes, extras, texts,
    )
}

// ---- those of a tree

// Every cell is 0.
pub fn clear_tree(nodes: &mut [u32], attrs: &mut [u32], strings: &mut [u8])
    ensures { AllZero (tree_tables nodes.old attrs.old strings.old)
        (tree_tables nodes.new attrs.new strings.new) }
{
    scan::clear(nodes);
    scan::clear(attrs);
    scan::clear_bytes(strings);
}

// The tree of n nodes and m attributes, of a text of so many bytes, leaves its tables: every cell is 0.
pub fn drop_tree(
    nodes: &mut [u32],
    attrs: &mut [u32],
    strings: &mut [u8],
    n: usize,
    m: usize,
    len: usize,
)
    requires { Ends nodes.old attrs.old strings.old n m len }
    ensures { AllZero (tree_tables nodes.old attrs.old strings.old)
        (tree_tables nodes.new attrs.new strings.new) }
{
    scan::clear(&mut nodes[..n * tree::NODE_CELLS]);
    scan::clear(&mut attrs[..m * tree::ATTR_CELLS]);
    scan::clear_bytes(&mut strings[..len]);
}
