#![tactic(auto)]
// A text read and written anew.
ghost use Rattle.track.specs.Handed.{lists};
ghost use Rattle.promised.specs.Promise.{tables};
ghost use Rattle.rewritten.specs.Recaption.{ThenWritten, Recaptioned};

use track::Tables;
use tree::Refusal;

// After the text was read: its track written to `out`; or the reader's number and place, and nothing is written.
fn write_read(read: Result<(), Refusal>, t: &Tables<'_>, out: &mut [u8]) -> Result<usize, Refusal>
    ensures { ThenWritten read (lists t.now) out.old result out.new }
{
    match read {
        Err(r) => {
            scan::clear_bytes(out);
            Err(r)
        }
        Ok(()) => document::write(t, out),
    }
}

// The track of the text, written to `out`; the track itself is left in its tables.
pub fn recaption(
    text: &[u8],
    nodes: &mut [u32],
    attrs: &mut [u32],
    head: &mut [u32],
    params: &mut [u32],
    styles: &mut [u32],
    regions: &mut [u32],
    cues: &mut [u32],
    times: &mut [i64],
    segments: &mut [u32],
    sizes: &mut [f32],
    extras: &mut [u32],
    strings: &mut [u8],
    texts: &mut [u8],
    out: &mut [u8],
) -> Result<usize, Refusal>
    ensures { Recaptioned text.now
        (tables nodes.old attrs.old head.old params.old styles.old regions.old
        cues.old times.old segments.old sizes.old extras.old strings.old
        texts.old)
        out.old result
        (tables nodes.new attrs.new head.new params.new styles.new regions.new
        cues.new times.new segments.new sizes.new extras.new strings.new
        texts.new)
        out.new }
{
    let read = reader::parse(
        text, nodes, attrs, head, params, styles, regions, cues, times, segments, sizes, extras,
        strings, texts,
    );
    let t = Tables {
        head,
        params,
        styles,
        regions,
        cues,
        times,
        segments,
        sizes,
        extras,
        strings,
        texts,
    };
    write_read(read, &t, out)
}
