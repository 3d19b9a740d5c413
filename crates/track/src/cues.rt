// Cues. The segments of each stand after those of the one before.
ghost use Rattle.std.specs.Prelude.{◌≡◌, ◌+◌, ◌*◌, ◌≤◌, length};
ghost use Rattle.track.specs.Meaning.{cue_values, is_cue, are_cues};

use crate::cells::is_flag;
use crate::extras::has_extras;
use crate::handed::Tables;
use crate::limits::{CUE_CELLS, NESTED};
use crate::segments::are_segments;
use crate::strings::is_optional;

// How many names P_INLINE_EXTRA_ORDER has.
const INLINE_NAMES: usize = 47;

// The strings, the flag and the extras of the cue in row i.
#[tactic(auto, unfolding(crate::specs::Meaning::cue_values, crate::specs::Tables::cell))]
fn cue_values(t: &Tables<'_>, i: usize) -> bool
    requires { (i * 11 + 11 ≤ length t.now.cues.now) × (24576 ≤ length t.now.extras.now) }
    ensures { result ≡ cue_values t.now.cues.now t.now.extras.now t.now.strings.now i }
{
    let at = i * CUE_CELLS;
    let style = scan::get(t.cues, at + 1);
    let region = scan::get(t.cues, at + 4);
    let first = scan::get(t.cues, at + 9);
    is_optional(
        t.strings,
        scan::get(t.cues, at),
        style,
        scan::get(t.cues, at + 2),
    ) && is_optional(
        t.strings,
        scan::get(t.cues, at + 3),
        region,
        scan::get(t.cues, at + 5),
    ) && is_flag(t.cues[at + 6])
        && has_extras(
            t.extras,
            t.strings,
            INLINE_NAMES,
            first,
            scan::get(t.cues, at + 10),
        )
}

// Is row i a cue whose segments begin at row `from`, where there are `most` in all?
#[tactic(auto, unfolding(crate::specs::Meaning::is_cue, crate::specs::Tables::cell))]
fn is_cue(t: &Tables<'_>, most: usize, from: usize, i: usize) -> bool
    requires { (i * 11 + 11 ≤ length t.now.cues.now) × (24576 ≤ length t.now.extras.now) × (most * 6 ≤ length t.now.segments.now)
        × (from ≤ most) }
    ensures { result ≡ is_cue t.now.cues.now t.now.extras.now t.now.segments.now t.now.strings.now t.now.texts.now most from i }
{
    let first = scan::get(t.cues, i * CUE_CELLS + 7);
    let n = scan::get(t.cues, i * CUE_CELLS + 8);
    cue_values(t, i) && first == from && n <= most - from && are_segments(t, from, n, NESTED)
}

// Are the first n rows cues, with `most` segments in all?
pub fn are_cues(t: &Tables<'_>, most: usize, n: usize) -> bool
    requires { (n * 11 ≤ length t.now.cues.now) × (24576 ≤ length t.now.extras.now) × (most * 6 ≤ length t.now.segments.now) }
    ensures { result ≡ are_cues t.now.cues.now t.now.extras.now t.now.segments.now t.now.strings.now t.now.texts.now most 0 n 0 }
{
    let mut from = 0;
    for i in 0..n {
        if !is_cue(t, most, from, i) {
            return false;
        }
        from += scan::get(t.cues, i * CUE_CELLS + 8);
    }
    from == most
}
