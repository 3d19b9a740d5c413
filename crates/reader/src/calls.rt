// The public calls.
ghost use Rattle.promised.specs.Promise.{tables, Parsed, CueParsed};

use crate::text::Wanted;
use tree::Refusal;

// The track of the text; after a refusal every cell is 0.
pub fn parse(
    text: &[u8],
    nodes: &mut [u32],
    attrs: &mut [u32],
    head: &mut [u32],
    params: &mut [u32],
    styles: &mut [u32],
    regions: &mut [u32],
    cues: &mut [u32],
    times: &mut [i64],
    segments: &mut [u32],
    sizes: &mut [f32],
    extras: &mut [u32],
    strings: &mut [u8],
    texts: &mut [u8],
) -> Result<(), Refusal>
    ensures { Parsed text.now
        (tables nodes.old attrs.old head.old params.old styles.old regions.old
        cues.old times.old segments.old sizes.old extras.old strings.old
        texts.old) result
        (tables nodes.new attrs.new head.new params.new styles.new regions.new
        cues.new times.new segments.new sizes.new extras.new strings.new
        texts.new) }
{
    crate::text::read_text(
        text,
        nodes,
        attrs,
        head,
        params,
        styles,
        regions,
        cues,
        times,
        segments,
        sizes,
        extras,
        strings,
        texts,
        Wanted::Track,
    )
}

// The cue of the first p of the text, as a track of one cue; after a refusal every cell is 0.
pub fn bytes_to_cue(
    text: &[u8],
    nodes: &mut [u32],
    attrs: &mut [u32],
    head: &mut [u32],
    params: &mut [u32],
    styles: &mut [u32],
    regions: &mut [u32],
    cues: &mut [u32],
    times: &mut [i64],
    segments: &mut [u32],
    sizes: &mut [f32],
    extras: &mut [u32],
    strings: &mut [u8],
    texts: &mut [u8],
) -> Result<(), Refusal>
    ensures { CueParsed text.now
        (tables nodes.old attrs.old head.old params.old styles.old regions.old
        cues.old times.old segments.old sizes.old extras.old strings.old
        texts.old) result
        (tables nodes.new attrs.new head.new params.new styles.new regions.new
        cues.new times.new segments.new sizes.new extras.new strings.new
        texts.new) }
{
    crate::text::read_text(
        text,
        nodes,
        attrs,
        head,
        params,
        styles,
        regions,
        cues,
        times,
        segments,
        sizes,
        extras,
        strings,
        texts,
        Wanted::Cue,
    )
}
