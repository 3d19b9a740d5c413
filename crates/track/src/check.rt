// The check of a handed track: number 17.
ghost use Rattle.std.specs.Prelude.{◌≡◌, ◌+◌, ◌*◌, ◌≤◌, length, get_or};
ghost use Rattle.track.specs.Handed.{lists};
ghost use Rattle.track.specs.Meaning.{within_limits, is_utf8, bytes_mean, rows_mean};
ghost use Rattle.track.specs.Steps.{refused_as_of, is_full};
ghost use Rattle.track.specs.Check.{Checked};

use crate::handed::Tables;
use crate::limits::{
    CUE_CELLS, CUES, EXTRA_CELLS, EXTRAS, HEAD_CELLS, PARAM_CELLS, PARAMS, REGION_CELLS, REGIONS,
    SEGMENT_CELLS, SEGMENTS, STYLE_CELLS, STYLES,
};
use tree::{BYTES, Refusal};

// The counts of the head.
#[tactic(auto, unfolding(crate::specs::Meaning::within_limits))]
fn within_limits(head: &[u32]) -> bool
    requires { 10 ≤ length head.now }
    ensures { result ≡ within_limits head.now }
{
    scan::get(head, 0) <= PARAMS
        && scan::get(head, 1) <= STYLES
        && scan::get(head, 2) <= REGIONS
        && scan::get(head, 3) <= CUES
        && scan::get(head, 4) <= SEGMENTS
        && scan::get(head, 8) <= BYTES
        && scan::get(head, 9) <= BYTES
}

// Are the bytes UTF-8?
fn is_utf8(bytes: &[u8]) -> bool
    ensures { result ≡ is_utf8 bytes.now }
{
    utf8::utf8_end(bytes) == bytes.len()
}

fn refused(number: u32) -> Result<(), Refusal>
    ensures { result ≡ refused_as_of number }
{
    Err(Refusal { number, place: 0 })
}

// Are the tables as long as they must be?
#[tactic(auto, unfolding(crate::specs::Steps::is_full, crate::specs::Steps::rows_full, crate::specs::Steps::rest_full))]
fn is_full(t: &Tables<'_>) -> bool
    ensures { result ≡ is_full (lists t.now) }
{
    HEAD_CELLS <= t.head.len()
        && PARAMS * PARAM_CELLS <= t.params.len()
        && STYLES * STYLE_CELLS <= t.styles.len()
        && REGIONS * REGION_CELLS <= t.regions.len()
        && CUES * CUE_CELLS <= t.cues.len()
        && SEGMENTS * SEGMENT_CELLS <= t.segments.len()
        && EXTRAS * EXTRA_CELLS <= t.extras.len()
        && CUES * 2 <= t.times.len()
        && STYLES <= t.sizes.len()
        && BYTES <= t.strings.len()
        && BYTES <= t.texts.len()
}

// The used bytes are UTF-8, and xml:lang is among them. In what follows the strings and texts are the used ones.
#[tactic(auto, unfolding(crate::specs::Meaning::bytes_mean))]
fn bytes_mean(t: &Tables<'_>) -> bool
    requires { 10 ≤ length t.now.head.now }
    ensures { result ≡ bytes_mean t.now.head.now t.now.strings.now t.now.texts.now }
{
    let lang = scan::get(t.head, 6);
    is_utf8(t.strings)
        && is_utf8(t.texts)
        && crate::strings::is_optional(t.strings, scan::get(t.head, 5), lang, scan::get(t.head, 7))
}

// The rows of parameters, styles and regions mean such.
#[tactic(auto, unfolding(crate::specs::Meaning::rows_mean))]
fn rows_mean(t: &Tables<'_>) -> bool
    requires { (10 ≤ length t.now.head.now) × (get_or t.now.head.now 0 0 * 4 ≤ length t.now.params.now)
        × (get_or t.now.head.now 1 0 * 27 ≤ length t.now.styles.now) × (get_or t.now.head.now 2 0 * 4 ≤ length t.now.regions.now)
        × (get_or t.now.head.now 1 0 ≤ length t.now.sizes.now) × (24576 ≤ length t.now.extras.now) }
    ensures { result ≡ rows_mean t.now.head.now t.now.params.now t.now.styles.now t.now.regions.now t.now.sizes.now
        t.now.extras.now t.now.strings.now }
{
    crate::params::are_params(t, scan::get(t.head, 0))
        && crate::styles::are_styles(t, scan::get(t.head, 1))
        && crate::styles::are_regions(t, scan::get(t.head, 2))
}

// Is what the tables hold a track? In time that is linear in what they use.
pub fn check_track(t: &Tables<'_>) -> Result<(), Refusal>
    ensures { Checked (lists t.now) result }
{
    if !is_full(t) {
        return refused(1);
    }
    if !within_limits(t.head) {
        return refused(17);
    }
    let used = Tables {
        strings: &t.strings[..scan::get(t.head, 8)],
        texts: &t.texts[..scan::get(t.head, 9)],
        ..*t
    };
    let n = scan::get(t.head, 3);
    let most = scan::get(t.head, 4);
    if !bytes_mean(&used) || !rows_mean(&used) || !crate::cues::are_cues(&used, most, n) {
        return refused(17);
    }
    Ok(())
}
