// The readers of whole texts.
ghost use Rattle.std.specs.Prelude.{◌≡◌};
ghost use Rattle.promised.specs.Promise.{tables, Parsed, CueParsed};
ghost use Rattle.told.specs.Told.{Tells, read_told};

use told::told;
use tree::Refusal;

fn tell(answer: Result<(), Refusal>) -> u64
    ensures { result ≡ read_told answer }
{
    match answer {
        Ok(()) => told(0, 0),
        Err(r) => told(r.number, r.place),
    }
}

// The track of the text.
pub fn pg_parse(
    text: &[u8],
    nodes: &mut [u32],
    attrs: &mut [u32],
    head: &mut [u32],
    params: &mut [u32],
    styles: &mut [u32],
    regions: &mut [u32],
    cues: &mut [u32],
    times: &mut [i64],
    segments: &mut [u32],
    sizes: &mut [f32],
    extras: &mut [u32],
    strings: &mut [u8],
    texts: &mut [u8],
) -> u64
    ensures { Tells read_told (λ a. Parsed text.now
        (tables nodes.old attrs.old head.old params.old styles.old regions.old
        cues.old times.old segments.old sizes.old extras.old strings.old
        texts.old)
        a
        (tables nodes.new attrs.new head.new params.new styles.new regions.new
        cues.new times.new segments.new sizes.new extras.new strings.new
        texts.new)) result }
{
    tell(reader::parse(
        text, nodes, attrs, head, params, styles, regions, cues, times, segments, sizes, extras,
        strings, texts,
    ))
}

// The cue of the first p of the text, as a track of one cue.
pub fn pg_bytes_to_cue(
    text: &[u8],
    nodes: &mut [u32],
    attrs: &mut [u32],
    head: &mut [u32],
    params: &mut [u32],
    styles: &mut [u32],
    regions: &mut [u32],
    cues: &mut [u32],
    times: &mut [i64],
    segments: &mut [u32],
    sizes: &mut [f32],
    extras: &mut [u32],
    strings: &mut [u8],
    texts: &mut [u8],
) -> u64
    ensures { Tells read_told (λ a. CueParsed text.now
        (tables nodes.old attrs.old head.old params.old styles.old regions.old
        cues.old times.old segments.old sizes.old extras.old strings.old
        texts.old)
        a
        (tables nodes.new attrs.new head.new params.new styles.new regions.new
        cues.new times.new segments.new sizes.new extras.new strings.new
        texts.new)) result }
{
    tell(reader::bytes_to_cue(
        text, nodes, attrs, head, params, styles, regions, cues, times, segments, sizes, extras,
        strings, texts,
    ))
}
