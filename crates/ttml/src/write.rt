// The writers.
ghost use Rattle.std.specs.Prelude.{◌≡◌};
ghost use Rattle.track.specs.Tables.{tables};
ghost use Rattle.writer.specs.Promise.{Promise, whole_text, cue_number};
ghost use Rattle.spoken.specs.Promise as spoken;
ghost use Rattle.told.specs.Told.{Tells, written_told};

use told::told;
use track::Tables;
use tree::Refusal;

fn tell(answer: Result<usize, Refusal>) -> u64
    ensures { result ≡ written_told answer }
{
    match answer {
        Ok(n) => told(0, n),
        Err(r) => told(r.number, r.place),
    }
}

// The track as text in `out`; how many bytes.
pub fn pg_write(
    head: &[u32],
    params: &[u32],
    styles: &[u32],
    regions: &[u32],
    cues: &[u32],
    times: &[i64],
    segments: &[u32],
    sizes: &[f32],
    extras: &[u32],
    strings: &[u8],
    texts: &[u8],
    out: &mut [u8],
) -> u64
    ensures { Tells written_told (λ a. Promise whole_text
        (tables head.now params.now styles.now regions.now cues.now times.now
        segments.now sizes.now extras.now strings.now texts.now)
        out.old a out.new) result }
{
    let t = Tables {
        head,
        params,
        styles,
        regions,
        cues,
        times,
        segments,
        sizes,
        extras,
        strings,
        texts,
    };
    tell(document::write(&t, out))
}

// The cue of this index as a text of its own in `out`; how many bytes.
pub fn pg_cue_to_bytes(
    head: &[u32],
    params: &[u32],
    styles: &[u32],
    regions: &[u32],
    cues: &[u32],
    times: &[i64],
    segments: &[u32],
    sizes: &[f32],
    extras: &[u32],
    strings: &[u8],
    texts: &[u8],
    index: usize,
    out: &mut [u8],
) -> u64
    ensures { Tells written_told (λ a. Promise (cue_number index)
        (tables head.now params.now styles.now regions.now cues.now times.now
        segments.now sizes.now extras.now strings.now texts.now)
        out.old a out.new) result }
{
    let t = Tables {
        head,
        params,
        styles,
        regions,
        cues,
        times,
        segments,
        sizes,
        extras,
        strings,
        texts,
    };
    tell(writer::cue_to_bytes(&t, index, out))
}

// What the cue of this index says, in `out`; how many bytes.
pub fn pg_plain_text(
    head: &[u32],
    cues: &[u32],
    segments: &[u32],
    texts: &[u8],
    index: usize,
    out: &mut [u8],
) -> u64
    ensures { Tells written_told (λ a. spoken.PlainText
        (spoken.tables head.now cues.now segments.now texts.now) index
        out.old a out.new) result }
{
    let t = spoken::Tables {
        head,
        cues,
        segments,
        texts,
    };
    tell(spoken::plain_text(&t, index, out))
}
