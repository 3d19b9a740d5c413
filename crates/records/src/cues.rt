// Cues.
ghost use Rattle.std.specs.Prelude.{◌≡◌, ◌+◌, ◌*◌, ◌≤◌, length};
ghost use Rattle.std.proofs.lemmas.List.Edits.{sets};
ghost use Rattle.track.specs.Tables.{cue_at};
ghost use Rattle.track.specs.Layout.{cue_cells};
ghost use Rattle.records.specs.Posts.{SmallSpan, SmallRows, AddPost, TimesPost};

use crate::rows::Row;
use track::{CUE_CELLS, CUES, Cue};

pub fn cue_at(cues: &[u32], times: &[i64], i: usize) -> Cue
    requires { (i * 11 + 11 ≤ length cues.now) × (i * 2 + 2 ≤ length times.now) }
    ensures { result ≡ cue_at cues.now times.now i }
{
    let at = i * CUE_CELLS;
    Cue {
        start: times[i * 2],
        end: times[i * 2 + 1],
        has_style: cues[at] == 1,
        style: track::optional_at(cues, at),
        has_region: cues[at + 3] == 1,
        region: track::optional_at(cues, at + 3),
        preserve: cues[at + 6] == 1,
        segments: crate::cells::rows_at(cues, at + 7),
        extras: crate::cells::rows_at(cues, at + 9),
    }
}

impl Row for Cue {
    ghost WIDTH = { 11 };

    ghost MOST = { 2048 };

    ghost cells = { cue_cells };

    ghost Small = { λ x. SmallSpan x.style × SmallSpan x.region × SmallRows x.segments × SmallRows x.extras };

    const WIDTH: usize = CUE_CELLS;

    const MOST: usize = CUES;

    fn put(self, table: &mut [u32], at: usize) {
        crate::cells::put_optional(table, at, self.has_style, self.style);
        crate::cells::put_optional(table, at + 3, self.has_region, self.region);
        table[at + 6] = crate::cells::flag_cell(self.preserve);
        crate::cells::put_rows(table, at + 7, self.segments);
        crate::cells::put_rows(table, at + 9, self.extras);
    }
}

// A cue more, where there are n.
pub fn add_cue(cues: &mut [u32], times: &mut [i64], n: usize, x: Cue) -> Option<usize>
    requires { (22528 ≤ length cues.old) × (4096 ≤ length times.old) × SmallSpan x.style × SmallSpan x.region
        × SmallRows x.segments × SmallRows x.extras }
    ensures add_post { AddPost 2048 11 (cue_cells x) cues.old cues.new n result }
    ensures times_post { TimesPost (n * 2) x.start x.end times.old times.new result }
{
    let m = crate::rows::add(cues, n, x)?;
    times[n * 2] = x.start;
    times[n * 2 + 1] = x.end;
    Some(m)
}
