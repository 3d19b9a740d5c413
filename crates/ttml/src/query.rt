// The three queries. What they answer stands in 27 cells and a float, which the crate `told` describes.
ghost use Rattle.track.specs.Tables.{tables};
ghost use Rattle.queries.specs.Promise.{ReferencedStyle, RegionStyle, EffectiveStyle};
ghost use Rattle.told.specs.Queries.{AnswersInC};

use told::tell_style;
use track::Tables;

// The style that a style value resolves to.
pub fn pg_resolve_referenced_style(
    value: &[u8],
    head: &[u32],
    params: &[u32],
    styles: &[u32],
    regions: &[u32],
    cues: &[u32],
    times: &[i64],
    segments: &[u32],
    sizes: &[f32],
    extras: &[u32],
    strings: &[u8],
    texts: &[u8],
    ids: &mut [u32],
    out: &mut [u64],
    size: &mut [f32],
) -> u64
    ensures { AnswersInC (ReferencedStyle value.now
        (tables head.now params.now styles.now regions.now cues.now times.now
        segments.now sizes.now extras.now strings.now texts.now)
        ids.old)
        ids.old ids.new out.old out.new size.old size.new result }
{
    let t = Tables {
        head,
        params,
        styles,
        regions,
        cues,
        times,
        segments,
        sizes,
        extras,
        strings,
        texts,
    };
    let answer = queries::resolve_referenced_style(value, &t, ids);
    tell_style(answer, ids, out, size)
}

// The style of the region of this id.
pub fn pg_region_style(
    id: &[u8],
    head: &[u32],
    params: &[u32],
    styles: &[u32],
    regions: &[u32],
    cues: &[u32],
    times: &[i64],
    segments: &[u32],
    sizes: &[f32],
    extras: &[u32],
    strings: &[u8],
    texts: &[u8],
    ids: &mut [u32],
    out: &mut [u64],
    size: &mut [f32],
) -> u64
    ensures { AnswersInC (RegionStyle id.now
        (tables head.now params.now styles.now regions.now cues.now times.now
        segments.now sizes.now extras.now strings.now texts.now)
        ids.old)
        ids.old ids.new out.old out.new size.old size.new result }
{
    let t = Tables {
        head,
        params,
        styles,
        regions,
        cues,
        times,
        segments,
        sizes,
        extras,
        strings,
        texts,
    };
    let answer = queries::region_style(id, &t, ids);
    tell_style(answer, ids, out, size)
}

// The style of the cue of this index.
pub fn pg_effective_style_for_cue_index(
    head: &[u32],
    params: &[u32],
    styles: &[u32],
    regions: &[u32],
    cues: &[u32],
    times: &[i64],
    segments: &[u32],
    sizes: &[f32],
    extras: &[u32],
    strings: &[u8],
    texts: &[u8],
    cue_index: usize,
    ids: &mut [u32],
    out: &mut [u64],
    size: &mut [f32],
) -> u64
    ensures { AnswersInC (EffectiveStyle
        (tables head.now params.now styles.now regions.now cues.now times.now
        segments.now sizes.now extras.now strings.now texts.now)
        cue_index ids.old)
        ids.old ids.new out.old out.new size.old size.new result }
{
    let t = Tables {
        head,
        params,
        styles,
        regions,
        cues,
        times,
        segments,
        sizes,
        extras,
        strings,
        texts,
    };
    let answer = queries::effective_style_for_cue_index(&t, cue_index, ids);
    tell_style(answer, ids, out, size)
}
