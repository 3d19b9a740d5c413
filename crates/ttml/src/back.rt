// A track written, and what was written read back.
ghost use Rattle.std.specs.Prelude.{◌≡◌};
ghost use Rattle.promised.specs.Promise.{tables};
ghost use Rattle.track.specs.Handed.{lists};
ghost use Rattle.ttml.specs.ReadBack.{Signed, Returned};
ghost use Rattle.ttml.specs.Steps.{count_of, outcome_of};

use track::Tables;
use tree::Refusal;

// Why no track comes back: the bytes that were written, so many, met a number; or the track that was handed did.
#[derive(Clone, Copy)]
pub enum NotBack {
    Unread(usize, Refusal),
    Unwritten(Refusal),
}

// Every time is an i64: reading it tells so.
fn all_signed(times: &[i64])
    ensures { Signed times.now }
{
    for i in 0..times.len() {
        let _time = times[i];
    }
}

// How many bytes are written.
fn count(answer: Result<usize, Refusal>) -> usize
    ensures { result ≡ count_of answer }
{
    answer.unwrap_or(0)
}

// What came of writing and reading.
fn outcome(answer: Result<usize, Refusal>, read: Result<(), Refusal>) -> Result<usize, NotBack>
    ensures { result ≡ outcome_of answer read }
{
    let n = answer.map_err(NotBack::Unwritten)?;
    match read {
        Ok(()) => Ok(n),
        Err(r) => Err(NotBack::Unread(n, r)),
    }
}

// The track written to `out`, how many bytes, and that text's track in the tables that are lent.
pub fn read_back(
    t: &Tables<'_>,
    out: &mut [u8],
    nodes: &mut [u32],
    attrs: &mut [u32],
    back_head: &mut [u32],
    back_params: &mut [u32],
    back_styles: &mut [u32],
    back_regions: &mut [u32],
    back_cues: &mut [u32],
    back_times: &mut [i64],
    back_segments: &mut [u32],
    back_sizes: &mut [f32],
    back_extras: &mut [u32],
    back_strings: &mut [u8],
    back_texts: &mut [u8],
) -> Result<usize, NotBack>
    ensures { Returned (lists t.now) out.old
        (tables nodes.old attrs.old back_head.old back_params.old back_styles.old
        back_regions.old back_cues.old back_times.old back_segments.old
        back_sizes.old back_extras.old back_strings.old back_texts.old)
        result out.new
        (tables nodes.new attrs.new back_head.new back_params.new back_styles.new
        back_regions.new back_cues.new back_times.new back_segments.new back_sizes.new
        back_extras.new back_strings.new back_texts.new) }
{
    all_signed(t.times);
    let answer = document::write(t, out);
    // where nothing is written no text is read, which clears every cell
    let n = count(answer);
    let read = reader::parse(
        &out[..n],
        nodes,
        attrs,
        back_head,
        back_params,
        back_styles,
        back_regions,
        back_cues,
        back_times,
        back_segments,
        back_sizes,
        back_extras,
        back_strings,
        back_texts,
    );
    outcome(answer, read)
}
