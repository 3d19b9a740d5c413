// The check of a handed track.
ghost use Rattle.track.specs.Tables.{tables};
ghost use Rattle.track.specs.Check.{Checked};
ghost use Rattle.told.specs.Told.{Tells, check_told};

use told::told;
use track::Tables;

// Is it a track?
pub fn pg_check_track(
    head: &[u32],
    params: &[u32],
    styles: &[u32],
    regions: &[u32],
    cues: &[u32],
    times: &[i64],
    segments: &[u32],
    sizes: &[f32],
    extras: &[u32],
    strings: &[u8],
    texts: &[u8],
) -> u64
    ensures { Tells check_told (Checked
        (tables head.now params.now styles.now regions.now cues.now times.now
        segments.now sizes.now extras.now strings.now texts.now)) result }
{
    let t = Tables {
        head,
        params,
        styles,
        regions,
        cues,
        times,
        segments,
        sizes,
        extras,
        strings,
        texts,
    };
    match track::check_track(&t) {
        Ok(()) => told(0, 0),
        Err(r) => told(r.number, r.place),
    }
}
